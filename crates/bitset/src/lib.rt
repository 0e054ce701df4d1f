// Sets of small numbers as masks: bit i of a mask is set where i is in the set. Masks of 32 bits hold integrators, inputs or nodes; those of 64 bits
// sources, or integrators and nodes together. `Mask` is what both can do. A set is visited in ascending order by `for i in mask.members()`.
#![tactic(auto)]

ghost use Rattle.std.specs.Prelude.{◌≡◌, ◌<◌, ◌≤◌, eqb, get_or};
ghost use Rattle.bitset.specs.Mask.{has, mask_of, all_of, union, with_bit, lowest_of, rest_of};
ghost use Rattle.bitset.specs.Counts.{count_of};

mod mask;
mod members;
mod narrow;
mod wide;

pub use mask::Mask;
pub use members::Members;
pub use wide::union_shifted;

// How many are in the set.
#[tactic(auto, using(crate::proofs::Laws::Counts::ones_count))]
pub fn count(mask: u32) -> usize
    ensures { result ≡ count_of (has mask) 32 }
{
    mask.count_ones() as usize
}

// All below n. The shift is by up to 32, so it needs more than 32 bits.
pub fn all(n: usize) -> u32
    requires { n ≤ 32 }
    ensures { result ≡ all_of n }
{
    ((1u64 << n) - 1) as u32
}

// The i below n with ticks[i] = t.
// By place: the place is what goes into the mask. The first n of a column of fixed width, as C lays it out.
pub fn where_equal(n: usize, ticks: &[u32; 32], t: u32) -> u32
    requires { n ≤ 32 }
    ensures { result ≡ mask_of (λ i. eqb (get_or ticks.now i 0) t) n }
{
    let mut equal: u32 = 0;
    for i in 0..n {
        if ticks[i] == t {
            equal = equal.with_bit(i);
        }
    }
    equal
}
