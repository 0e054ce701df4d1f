// A walk over a mask.
ghost use Rattle.std.specs.Iterator.{at_most};
ghost use Rattle.bitset.specs.Mask.{TakesLowest};

use crate::mask::Mask;

// The members of a mask, lowest first, as `for i in mask.members()` takes them: `left` has those that are still to come. The built loop is that of a
// `while` by `lowest` and `rest`.
#[derive(Clone, Copy)]
pub struct Members<M> {
    pub(crate) left: M,
}

impl<M: Mask> Iterator for Members<M> {
    type Item = usize;

    ghost next_gives = { λ s r t. TakesLowest M.width (M.number s.left) r (M.number t.left) };

    ghost remaining = { λ s. at_most (M.number s.left) };

    fn next(&mut self) -> Option<usize> {
        let left = self.left;
        if left.is_empty() {
            return None;
        }
        self.left = left.rest();
        Some(left.lowest())
    }
}
