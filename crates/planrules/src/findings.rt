// Document 01's number and entry of a finding, as the calls for C give them: 0 where nothing is found.
ghost use Rattle.std.specs.Prelude.{◌≡◌};
ghost use Rattle.plan.specs.Refusals.{number_of, entry_of};

use plan::{ACCEPTED, Refusal};

// Document 01's number of a finding.
#[tactic(auto, unfolding(plan::specs::Refusals::number_of))]
pub fn number_of(finding: Result<(), Refusal>) -> usize
    ensures { result ≡ number_of finding }
{
    match finding {
        Ok(()) => ACCEPTED,
        Err(refusal) => refusal.number(),
    }
}

// The faulty entry of a finding, 0 for those that have none.
#[tactic(auto, unfolding(plan::specs::Refusals::entry_of))]
pub fn entry_of(finding: Result<(), Refusal>) -> usize
    ensures { result ≡ entry_of finding }
{
    match finding {
        Ok(()) => 0,
        Err(refusal) => refusal.entry(),
    }
}
