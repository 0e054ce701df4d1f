// The calls for C and Rust, which the crate `cup_c` exports. No call keeps anything, and none asks anything of the bytes or of the state.
// They are the C interface, hence numbers, `&mut` for a second answer, and a call for each engine.
#![tactic(auto)]

ghost use Rattle.std.specs.Prelude.{◌≡◌, length};
ghost use Rattle.plan.specs.Format.{part};
ghost use Rattle.plan.specs.Refusals.{number_of, entry_of, finding_of, section_of, section_start};
ghost use Rattle.machine.specs.SoundTest.{is_sound};
ghost use Rattle.machine.specs.declared.Engine.TheVariants.{Lazy, Eager};
ghost use Rattle.calls.specs.Calls.{load_of, write_of, buffer_of_write, run_of, buffer_of_run, positioned_of};
ghost use Rattle.cup.specs.Tables.{tables_of};
ghost use Rattle.cup.specs.Rewriting.{rewrite_number, rewrite_length, rewrite_buffer, RewriteAnswered};

use directory::{offset_in, section_in};
use machine::State;
use plan::{ACCEPTED, Refusal, SECTION_INTEGRATORS, SECTIONS, SOURCES};
use planfile::{finding_of, read_plan};
use planrules::{entry_of, number_of};
use planwriter::write_plan;
use rates::RANGES;
use reach::reach_table;
use simulator::{
    Loaded, Positioned, Ran, Written, is_sound, load, position, run_eager, run_lazy, section, write,
};
use soundness::{Tested, test_state};

// Reads a plan file: the number, 0 where it is accepted, and the lowest faulty entry.
pub fn cup_read(file: &[u8], entry: &mut usize) -> usize
    ensures answer { result ≡ number_of (finding_of file.now) }
    ensures entry { entry.new ≡ entry_of (finding_of file.now) }
{
    let finding = finding_of(file);
    *entry = entry_of(finding);
    number_of(finding)
}

// The section view: the length of the part, and where in the file it starts, an empty section too. Both are 0 if the file would be refused or the number
// is above 4.
pub fn cup_section(file: &[u8], number: usize, offset: &mut usize) -> usize
    ensures answer { result ≡ length (section_of file.now number) }
    ensures offset { offset.new ≡ section_start file.now number }
    ensures part { part file.now offset.new result ≡ section_of file.now number }
{
    // An accepted file has an integrator, so its first section is not empty.
    let integrators = section(file, SECTION_INTEGRATORS).len();
    if integrators == 0 || SECTIONS <= number {
        *offset = 0;
        return 0;
    }
    *offset = offset_in(file, number) as usize;
    section_in(file, number).len()
}

// The length of the plan's file that is written, or the reader's refusal, or the writer's.
fn rewritten(file: &[u8], buffer: &mut [u8]) -> Result<usize, Refusal>
    ensures { RewriteAnswered file.now buffer.old result buffer.new }
{
    let plan = read_plan(file)?;
    write_plan(&plan, buffer).ok_or(Refusal::WriteBuffer)
}

// Reads a plan file and writes its plan into the buffer: the number, and the length of what is written. Where the number is not 0 the length is 0,
// and the buffer keeps every byte.
pub fn cup_rewrite(file: &[u8], buffer: &mut [u8], written: &mut usize) -> usize
    ensures answer { result ≡ rewrite_number file.now (length buffer.old) }
    ensures written { written.new ≡ rewrite_length file.now (length buffer.old) }
    ensures buffer { buffer.new ≡ rewrite_buffer file.now buffer.old }
{
    let (number, length) = match rewritten(file, buffer) {
        Ok(length) => (ACCEPTED, length),
        Err(refusal) => (refusal.number(), 0),
    };
    *written = length;
    number
}

// The public call `load`.
pub fn cup_load(file: &[u8]) -> Loaded
    ensures { result ≡ load_of file.now }
{
    load(file)
}

// The public call `write`.
pub fn cup_write(state: State, buffer: &mut [u8]) -> Written
    ensures answer { result ≡ write_of state buffer.old }
    ensures buffer { buffer.new ≡ buffer_of_write state buffer.old }
{
    write(state, buffer)
}

// "A sound state": whether the state is one, so that no call declines it by 10.
pub fn cup_sound(state: State) -> bool
    ensures { result ≡ is_sound state }
{
    is_sound(state)
}

// The state that was handed in, so that a caller can see that both sides lay out its fields alike.
pub fn cup_echo(state: State) -> State
    ensures { result ≡ state }
{
    state
}

// The tables that a run starts with: where each integrator's links begin, what a change of each source reaches, and the value of each source.
#[repr(C)]
#[derive(Clone, Copy)]
pub struct Tables {
    pub ranges: [usize; RANGES],
    pub reach: [u64; SOURCES],
    pub values: [i64; SOURCES],
}

// The tables of a sound state, else all 0. For tests.
pub fn cup_tables(state: State) -> Tables
    ensures { result ≡ tables_of state }
{
    let Some(test) = test_state(&state.plan, &state.run) else {
        return Tables {
            ranges: [0; RANGES],
            reach: [0; SOURCES],
            values: [0; SOURCES],
        };
    };
    let Tested { ranges, values } = test;
    let reach = reach_table(&state.plan);
    Tables {
        ranges,
        reach,
        values,
    }
}

// The public call `run_lazy`.
pub fn cup_run_lazy(state: State, budget: u64, buffer: &mut [u8]) -> Ran
    ensures answer { result ≡ run_of Lazy state budget buffer.old }
    ensures buffer { buffer.new ≡ buffer_of_run Lazy state budget buffer.old }
{
    run_lazy(state, budget, buffer)
}

// The public call `run_eager`.
pub fn cup_run_eager(state: State, budget: u64, buffer: &mut [u8]) -> Ran
    ensures answer { result ≡ run_of Eager state budget buffer.old }
    ensures buffer { buffer.new ≡ buffer_of_run Eager state budget buffer.old }
{
    run_eager(state, budget, buffer)
}

// The public call `position`.
pub fn cup_position(state: State, integrator: usize) -> Positioned
    ensures { result ≡ positioned_of state integrator }
{
    position(state, integrator)
}
