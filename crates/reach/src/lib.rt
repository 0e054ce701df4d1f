// Which integrators a change reaches, and which nodes it touches: "dependence is followed down through lower-numbered nodes". A table, worked out once
// for a run, has an entry of 64 bits for each source: bit i is set where a change of the source reaches integrator i, bit FIRST_NODE_BIT + j where it touches node j.
#![tactic(auto)]

ghost use Rattle.std.specs.Prelude.{◌≡◌, ◌+◌, ◌/◌, ◌%◌, ◌^◌, ◌≤◌, ◌<◌};
ghost use Rattle.plan.specs.Numbers.{most_nodes, source_width};
ghost use Rattle.reach.specs.Table.{link_entries, own_entries, added_to, added_to_operands, followed_down, reach_table, entries_of, LinksReady, OperandsReady, TableReady};

use bitset::Mask;
use plan::{KIND_LIMIT, Links, Nodes, Plan, SOURCES};

// The lower half of an entry is the integrators', the upper half the nodes'.
const FIRST_NODE_BIT: usize = 32;

// "a link of its own names" a source: the target of each of the first `count` links goes into the entry of its source.
// By place: `zip` of the two columns and `take` of their count would say no more.
#[tactic(auto, unfolding(crate::specs::Table::marked))]
fn link_entries(links: &Links, count: usize) -> [u64; SOURCES]
    requires { LinksReady links.now count }
    ensures { result ≡ link_entries links.now count }
{
    let mut table = [0u64; SOURCES];
    for e in 0..count {
        let source = links.sources[e];
        table[source] = table[source].with_bit(links.targets[e]);
    }
    table
}

// Each node goes into its own entry; node j's source number is base + j.
#[tactic(auto, unfolding(crate::specs::Table::marked))]
fn own_entries(base: usize, k: usize, table: &mut [u64; SOURCES])
    requires { (k ≤ most_nodes) × (base + k ≤ source_width) }
    ensures { table.new ≡ own_entries base table.old k }
{
    for j in 0..k {
        let source = base + j;
        table[source] = table[source].with_bit(FIRST_NODE_BIT + j);
    }
}

// The bits of `entry` go into the entry of a source too.
fn add_to(table: &mut [u64; SOURCES], source: usize, entry: u64)
    requires { source < source_width }
    ensures { table.new ≡ added_to table.old source entry }
{
    table[source] = table[source].union(entry);
}

// What node j's change reaches, a change of an operand that it uses reaches too. "B is 0 and names nothing" for kind 2.
// The kind is a number here: the clause is of any kinds, those above 3 too, which `Kind` refuses.
#[tactic(auto, unfolding(crate::specs::Table::added_to_operands))]
fn add_to_operands(nodes: &Nodes, base: usize, j: usize, table: &mut [u64; SOURCES])
    requires { (j < most_nodes) × OperandsReady nodes.now base (j + 1) }
    ensures { table.new ≡ added_to_operands nodes.now base j table.old }
{
    let entry = table[base + j];
    add_to(table, nodes.a[j], entry);
    if nodes.kinds[j] != KIND_LIMIT {
        add_to(table, nodes.b[j], entry);
    }
}

// "dependence is followed down through lower-numbered nodes": node k − 1 first, then the nodes below it. An operand has a lower number than its node; when a
// node's turn comes, every node that uses it has had its turn and the entry is whole. So each node is visited once. It stays recursive, with the node number
// falling: document 01 names this form.
#[tactic(auto, unfolding(crate::specs::Table::followed_down))]
fn follow_down(nodes: &Nodes, base: usize, k: usize, table: &mut [u64; SOURCES])
    requires { (k ≤ most_nodes) × OperandsReady nodes.now base k }
    ensures { table.new ≡ followed_down nodes.now base k table.old }
{
    if k > 0 {
        add_to_operands(nodes, base, k - 1, table);
        follow_down(nodes, base, k - 1, table);
    }
}

// The table of a plan.
#[tactic(auto, unfolding(crate::specs::Table::reach_table))]
pub fn reach_table(plan: &Plan) -> [u64; SOURCES]
    requires { TableReady plan.now }
    ensures { result ≡ reach_table plan.now }
{
    let base = plan.counts.n + plan.counts.m;
    let k = plan.counts.k;
    let mut table = link_entries(&plan.links, plan.counts.links);
    own_entries(base, k, &mut table);
    follow_down(&plan.nodes, base, k, &mut table);
    table
}

// The entries of the changed sources, joined.
fn entries_of(table: &[u64; SOURCES], changed: u64) -> u64
    ensures { result ≡ entries_of table.now changed }
{
    let mut entries = 0u64;
    for source in changed.members() {
        entries = entries.union(table[source]);
    }
    entries
}

// The reached integrators, and the nodes that depend on a change.
#[derive(Clone, Copy)]
pub struct Reach {
    pub integrators: u32,
    pub nodes: u32,
}

// What changes of these sources reach: the lower and the upper half of their entries, joined.
pub fn reached_by(table: &[u64; SOURCES], changed: u64) -> Reach
    ensures integrators { result.integrators ≡ entries_of table.now changed % 2 ^ 32 }
    ensures nodes { result.nodes ≡ entries_of table.now changed / 2 ^ 32 }
{
    let entries = entries_of(table, changed);
    let integrators = (entries % (1 << FIRST_NODE_BIT)) as u32;
    let nodes = (entries >> FIRST_NODE_BIT) as u32;
    Reach { integrators, nodes }
}
