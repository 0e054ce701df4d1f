// The public calls of the cup simulator: what each answers.
#![tactic(auto)]

mod positions;
mod testing;
mod writing;

ghost use Rattle.std.specs.Prelude.{◌≡◌};
ghost use Rattle.plan.specs.Refusals.{section_of, section_start};
ghost use Rattle.directory.specs.Pointers.{further};
ghost use Rattle.calls.specs.Calls.{load_of};

pub use calls::{Loaded, Positioned, Ran, Written};
use directory::section_in;
use machine::State;
use plan::{ACCEPTED, SECTIONS};
use planfile::{finding_of, read_plan};
pub use positions::position;
pub use runcalls::{run_eager, run_lazy};
use starts::start;
pub use testing::is_sound;
pub use writing::write;

// The section view: "hands back that part of the caller's own file, or an empty part if the file would be refused or the number is above 4". `answer`
// says what the part holds, `place` where it lies, so that it is the caller's own.
pub fn section(file: &[u8], number: usize) -> &[u8]
    ensures answer { result.now ≡ section_of file.now number }
    ensures place { result.ref_ptr ≡ further file.entry.ref_ptr (section_start file.now number) }
{
    if SECTIONS <= number {
        return &file[..0];
    }
    let Ok(()) = finding_of(file) else {
        return &file[..0];
    };
    section_in(file, number)
}

// "Load accepts every file that meets none of 1 to 9. Load tries 1 to 9 and returns number, lowest faulty entry of that section (0 for 1 to 4) and the idle
// state." An accepted file's state is the start of its plan.
pub fn load(file: &[u8]) -> Loaded
    ensures { result ≡ load_of file.now }
{
    match read_plan(file) {
        Ok(plan) => {
            let run = start(&plan);
            Loaded {
                number: ACCEPTED,
                entry: 0,
                state: State { plan, run },
            }
        }
        Err(refusal) => Loaded {
            number: refusal.number(),
            entry: refusal.entry(),
            state: State::idle(),
        },
    }
}
