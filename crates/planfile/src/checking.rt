// What a file is refused for: no plan is handed back.
ghost use Rattle.std.specs.Prelude.{◌≡◌};
ghost use Rattle.plan.specs.Format.{plan_in};
ghost use Rattle.plan.specs.Refusals.{plan_finding, finding_of};
ghost use Rattle.directory.specs.Directory.{Directory};

use crate::decoding::decode;
use directory::check_directory;
use plan::Refusal;
use planrules::check_plan;

// The refusals 4 to 9, of the plan that the file holds. A function of its own, so that no 9 KB are cleared for a file whose directory is refused: a
// function clears its locals where it begins.
fn check_sections(file: &[u8]) -> Result<(), Refusal>
    requires { Directory file.now }
    ensures { result ≡ plan_finding (plan_in file.now) }
{
    check_plan(&decode(file))
}

// "Load tries 1 to 9 and returns number, lowest faulty entry": the directory before any entry. Its answer is taken apart by `let .. else` before the next
// check, the form that document 01 names.
// Not `read_plan(file).map(..)`: a plan is some 9 KB by value, which is not copied for the caller to drop it (DECISIONS, 38).
#[tactic(auto, using(crate::proofs::Laws::Reading::reading), unfolding(plan::specs::Refusals::or_else))]
pub fn finding_of(file: &[u8]) -> Result<(), Refusal>
    ensures { result ≡ finding_of file.now }
{
    let found = check_directory(file);
    let Ok(()) = found else {
        return found;
    };
    check_sections(file)
}
