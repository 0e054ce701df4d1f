// The values of sources: outputs, inputs, and nodes in node order. `values` holds the value of each source at its source number.
#![tactic(auto)]

ghost use Rattle.std.specs.Prelude.{◌≡◌, ◌^◌, ◌≤◌, ◌<◌};
ghost use Rattle.integers.specs.Parts.{∣◌∣};
ghost use Rattle.bitset.specs.Mask.{has, each};
ghost use Rattle.plan.specs.Numbers.{M, most_integrators, most_inputs};
ghost use Rattle.machine.specs.Values.{clipped, node_value};
ghost use Rattle.values.specs.Sources.{output_and_input_values, outputs_in, inputs_in, node_step, values_by, NodesReady, SourcesReady};

use bitset::{Mask, all};
use integers::{floor_65536, limit};
use machine::State;
use plan::{
    Counts, INPUTS, INTEGRATORS, KIND_DIFFERENCE, KIND_LIMIT, KIND_PRODUCT, Nodes, Plan, SOURCES,
};

// "clipped to ±M"
#[tactic(auto, unfolding(integers::specs::Range::limited))]
fn clip(v: i64) -> i64
    ensures { result ≡ clipped v }
{
    v.clamp(-State::M, State::M)
}

// "0 is a−b; 1 is floor(a×b / 65,536); both then clipped to ±M .. 2 is a limited to lo..hi .. 3 is hi if a ≥ b, else lo."
// A kind is a number here, as in the plan's arrays, which are the C interface; one above 3 counts as 3. `clamp` would ask lo ≤ hi, which is no part of
// what this function asks; hence `limit`.
pub fn node_value(kind: usize, a: i64, b: i64, lo: i64, hi: i64) -> i64
    requires { (∣ a ∣ ≤ M) × (∣ b ∣ ≤ M) }
    ensures { result ≡ node_value kind a b lo hi }
{
    match kind {
        KIND_DIFFERENCE => clip(a - b),
        KIND_PRODUCT => clip(floor_65536(a * b)),
        KIND_LIMIT => limit(a, lo, hi),
        _ => if a >= b { hi } else { lo },
    }
}

// Node j, whose source number is base + j, from the values of its operands.
fn work_out_node(nodes: &Nodes, j: usize, base: usize, k: usize, values: &mut [i64; SOURCES])
    requires { (j < k) × NodesReady nodes.now values.old base k }
    ensures { values.new ≡ node_step nodes.now base j values.old }
{
    let first = values[nodes.a[j]];
    let second = values[nodes.b[j]];
    values[base + j] = node_value(nodes.kinds[j], first, second, nodes.lows[j], nodes.highs[j]);
}

// "Node values are worked out in node order": those of the mask, lowest first.
// The nodes with `base` and `k`, as `node_step` has them: with the plan in their place each clause would spell both out of its counts.
pub fn work_out_nodes(
    nodes: &Nodes,
    base: usize,
    k: usize,
    touched: u32,
    values: &mut [i64; SOURCES],
)
    requires { (touched < 2 ^ k) × NodesReady nodes.now values.old base k }
    ensures { values.new ≡ each (node_step nodes.now base) (has touched) 32 values.old }
{
    for j in touched.members() {
        work_out_node(nodes, j, base, k, values);
    }
}

// The outputs at 0 to n−1 and the input values at n to n+m−1, and 0 from there on.
fn output_and_input_values(
    n: usize,
    m: usize,
    q: &[i64; INTEGRATORS],
    inputs: &[i64; INPUTS],
) -> [i64; SOURCES]
    requires { (n ≤ most_integrators) × (m ≤ most_inputs) }
    ensures { result ≡ output_and_input_values n m q.now inputs.now }
{
    let mut values = [0; SOURCES];
    values[..n].copy_from_slice(&q[..n]);
    values[n..n + m].copy_from_slice(&inputs[..m]);
    values
}

// The value of every source of a plan, with the outputs q and these input values.
pub fn source_values(plan: &Plan, q: &[i64; INTEGRATORS], inputs: &[i64; INPUTS]) -> [i64; SOURCES]
    requires { SourcesReady plan.now q.now inputs.now }
    ensures { result ≡ values_by plan.now q.now inputs.now }
{
    let Counts { n, m, k, .. } = plan.counts;
    let mut values = output_and_input_values(n, m, q, inputs);
    work_out_nodes(&plan.nodes, n + m, k, all(k), &mut values);
    values
}

// The outputs, read out of the values of sources.
pub fn outputs_in(n: usize, values: &[i64; SOURCES]) -> [i64; INTEGRATORS]
    requires { n ≤ most_integrators }
    ensures { result ≡ outputs_in n values.now }
{
    let mut q = [0; INTEGRATORS];
    q[..n].copy_from_slice(&values[..n]);
    q
}

// The input values, read out of the values of sources.
pub fn inputs_in(n: usize, m: usize, values: &[i64; SOURCES]) -> [i64; INPUTS]
    requires { (n ≤ most_integrators) × (m ≤ most_inputs) }
    ensures { result ≡ inputs_in n m values.now }
{
    let mut inputs = [0; INPUTS];
    inputs[..m].copy_from_slice(&values[n..n + m]);
    inputs
}
