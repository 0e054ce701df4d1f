// Reading a plan file: its plan, or what it is refused for.
ghost use Rattle.std.specs.Prelude.{◌≡◌};
ghost use Rattle.plan.specs.Idle.{idle_plan};
ghost use Rattle.planfile.specs.Reading.{file_plan_of, found_of};

use crate::decoding::decode;
use directory::check_directory;
use plan::{Plan, Refusal};
use planrules::check_plan;

// What a check found, as the answer of a reading, which is of another type: its refusal. Where a check found nothing, which no caller hands on, the idle
// plan stands in for the plan that isn't here.
fn refused(found: Result<(), Refusal>) -> Result<Plan, Refusal>
    ensures { result ≡ found_of found idle_plan }
{
    match found {
        Ok(()) => Ok(Plan::idle()),
        Err(refusal) => Err(refusal),
    }
}

// "Load tries 1 to 9": the directory before any entry, then the plan that the file holds. Each check's answer is taken apart by `let .. else` before what
// comes next, and not by `?`: the form that document 01 names.
#[tactic(auto, using(crate::proofs::Laws::Reading::reading), unfolding(crate::specs::Reading::file_plan_of, plan::specs::Refusals::or_else))]
pub fn read_plan(file: &[u8]) -> Result<Plan, Refusal>
    ensures { result ≡ file_plan_of file.now }
{
    let found = check_directory(file);
    let Ok(()) = found else {
        return refused(found);
    };
    let plan = decode(file);
    let found = check_plan(&plan);
    let Ok(()) = found else {
        return refused(found);
    };
    Ok(plan)
}
