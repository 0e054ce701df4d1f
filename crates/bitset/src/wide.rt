// Masks of 64 bits.
ghost use Rattle.std.specs.Prelude.{◌≡◌, ◌^◌, ◌<◌, ◌≤◌};
ghost use Rattle.bitset.specs.Mask.{has, union, with_bit, lowest_of, rest_of, union_shifted};

use crate::mask::Mask;

impl Mask for u64 {
    ghost width = { 64 };

    ghost number = { λ mask. mask };

    #[tactic(auto, unfolding(crate::specs::Mask::has))]
    fn has(self, i: usize) -> bool {
        (self >> i) % 2 == 1
    }

    #[tactic(auto, using(crate::proofs::Laws::Bits::one_shl), unfolding(crate::specs::Mask::with_bit))]
    fn with_bit(self, i: usize) -> u64 {
        self | (1 << i)
    }

    fn lowest(self) -> usize {
        self.trailing_zeros() as usize
    }

    fn rest(self) -> u64 {
        self & (self - 1)
    }

    fn union(self, other: u64) -> u64 {
        self | other
    }

    fn is_empty(self) -> bool {
        self == 0
    }
}

// Two sets as one: the i of `low`, which are below n, and n + i for each i of `high`. So integrators and inputs become a set of source numbers.
pub fn union_shifted(low: u32, high: u32, n: usize) -> u64
    requires { (n ≤ 32) × (low < 2 ^ n) }
    ensures { result ≡ union_shifted low high n }
{
    (u64::from(high) << n) | u64::from(low)
}
