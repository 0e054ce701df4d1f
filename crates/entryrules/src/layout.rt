// The sections of a plan file, in order, as a table: the bytes of an entry, and the limits of the count.
ghost use Rattle.std.specs.Prelude.{◌≡◌, ◌<◌};
ghost use Rattle.plan.specs.Numbers.{sections, entry_sizes, least_counts, largest_counts};
ghost use Rattle.plan.specs.Lists.{nat_at, every};
ghost use Rattle.plan.specs.Tests.{count_kept};

use plan::{
    COMMAND_BYTES, COMMANDS, INPUT_BYTES, INPUTS, INTEGRATOR_BYTES, INTEGRATORS, LINK_BYTES, LINKS,
    NODE_BYTES, NODES, SECTIONS,
};

const ENTRY_SIZES: [u64; SECTIONS] = [
    INTEGRATOR_BYTES as u64,
    INPUT_BYTES as u64,
    NODE_BYTES as u64,
    LINK_BYTES as u64,
    COMMAND_BYTES as u64,
];

const LEAST_COUNTS: [u64; SECTIONS] = [1, 0, 0, 0, 0];

const LARGEST_COUNTS: [u64; SECTIONS] = [
    INTEGRATORS as u64,
    INPUTS as u64,
    NODES as u64,
    LINKS as u64,
    COMMANDS as u64,
];

// The bytes of an entry of a section. None is 0, so a length can be divided by it.
#[tactic(auto, using(crate::proofs::Laws::Layout::sizes))]
pub fn entry_size(section: usize) -> u64
    requires { section < sections }
    ensures answer { result ≡ nat_at entry_sizes section }
    ensures range { 0 < result }
{
    ENTRY_SIZES[section]
}

// The least count of a section, and the largest.
fn least_count(section: usize) -> u64
    requires { section < sections }
    ensures { result ≡ nat_at least_counts section }
{
    LEAST_COUNTS[section]
}

fn largest_count(section: usize) -> u64
    requires { section < sections }
    ensures { result ≡ nat_at largest_counts section }
{
    LARGEST_COUNTS[section]
}

// Whether a count is inside its section's limits.
#[tactic(auto, unfolding(plan::specs::Tests::count_kept))]
pub fn count_kept(section: usize, count: u64) -> bool
    requires { section < sections }
    ensures { result ≡ count_kept section count }
{
    (least_count(section)..=largest_count(section)).contains(&count)
}

// Whether the counts of a plan, in the order of the sections, are inside their limits. They may be any numbers.
pub fn counts_kept(counts: &[usize; SECTIONS]) -> bool
    ensures { result ≡ every (λ section. count_kept section (nat_at counts.now section)) sections }
{
    (0..SECTIONS).all(|section| count_kept(section, counts[section] as u64))
}
