// Masks of either width under one set of names. Each width has an impl with the same bodies: the gate takes no impl that a macro writes, and one impl over
// the kit's `PrimInt` would shift by a u32 and speak of a number by way of its bits.
ghost use Rattle.std.specs.Prelude.{◌≡◌, ℕ, ◌^◌, ◌<◌, ◌≤◌, eqb};
ghost use Rattle.bitset.specs.Mask.{has, union, with_bit, lowest_of, rest_of};

use crate::members::Members;

// An unsigned integer read as a set: `width` is how many bits it has, and `number` the number that it is, of which the definitions speak.
pub trait Mask: Copy {
    ghost width: { ℕ };

    ghost number: { Self → ℕ };

    // Whether i is in the set.
    fn has(self, i: usize) -> bool
        requires { i < width }
        ensures { result ≡ has (number self) i };

    // The set, and i.
    fn with_bit(self, i: usize) -> Self
        requires { i < width }
        ensures { number result ≡ with_bit (number self) i };

    // The lowest of the set, or the width where the set is empty.
    fn lowest(self) -> usize
        ensures { result ≡ lowest_of width (number self) };

    // The set without its lowest.
    fn rest(self) -> Self
        requires { 0 < number self }
        ensures { number result ≡ rest_of (number self) };

    // What is in either.
    fn union(self, other: Self) -> Self
        ensures { number result ≡ union (number self) (number other) };

    // Whether nothing is in the set.
    fn is_empty(self) -> bool
        ensures { result ≡ eqb (number self) 0 };

    // Those in the set, lowest first.
    final fn members(self) -> Members<Self>
        ensures { result.left ≡ self }
    {
        Members { left: self }
    }
}
