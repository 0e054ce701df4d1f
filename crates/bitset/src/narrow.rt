// Masks of 32 bits.
use crate::mask::Mask;

impl Mask for u32 {
    ghost width = { 32 };

    ghost number = { λ mask. mask };

    #[tactic(auto, unfolding(crate::specs::Mask::has))]
    fn has(self, i: usize) -> bool {
        (self >> i) % 2 == 1
    }

    #[tactic(auto, using(crate::proofs::Laws::Bits::one_shl), unfolding(crate::specs::Mask::with_bit))]
    fn with_bit(self, i: usize) -> u32 {
        self | (1 << i)
    }

    fn lowest(self) -> usize {
        self.trailing_zeros() as usize
    }

    fn rest(self) -> u32 {
        self & (self - 1)
    }

    fn union(self, other: u32) -> u32 {
        self | other
    }

    fn is_empty(self) -> bool {
        self == 0
    }
}
