// "Node kinds", each with its number.
ghost use Rattle.std.specs.Prelude.{◌≡◌};
ghost use Rattle.plan.specs.Kinds.{kind_of};

use crate::numbers::{KIND_COMPARISON, KIND_DIFFERENCE, KIND_LIMIT, KIND_PRODUCT};

// What a node does with the values a and b of its sources: specs/Numbers has document 01's words for each.
#[derive(Clone, Copy, Debug, PartialEq, Eq)]
pub enum Kind {
    Difference,
    Product,
    Limit,
    Comparison,
}

impl TryFrom<usize> for Kind {
    type Error = ();

    ghost try_from_gives = { λ number result. result ≡ kind_of number };

    // The plan's columns hold kinds as numbers, and so does a state that was filled by hand: any number can stand there.
    #[tactic(auto, unfolding(crate::specs::Kinds::kind_of))]
    fn try_from(number: usize) -> Result<Self, ()> {
        match number {
            KIND_DIFFERENCE => Ok(Kind::Difference),
            KIND_PRODUCT => Ok(Kind::Product),
            KIND_LIMIT => Ok(Kind::Limit),
            KIND_COMPARISON => Ok(Kind::Comparison),
            _ => Err(()),
        }
    }
}
