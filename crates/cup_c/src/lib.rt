// The calls of the crate `cup` for C and Rust, as a static library; `include/cup.h` declares them. A `&[u8]` is a pointer and a length, and a state goes in and
// out by value. Each export promises what the call that it makes does.
// No crate can depend on a static library, and only what it defines is exported: so the C interface needs each call once more.
#![tactic(auto)]

ghost use Rattle.std.specs.Prelude.{◌≡◌, length};
ghost use Rattle.plan.specs.Format.{part};
ghost use Rattle.plan.specs.Refusals.{number_of, entry_of, finding_of, section_of, section_start};
ghost use Rattle.machine.specs.SoundTest.{is_sound};
ghost use Rattle.machine.specs.declared.Engine.TheVariants.{Lazy, Eager};
ghost use Rattle.calls.specs.Calls.{load_of, write_of, buffer_of_write, run_of, buffer_of_run, positioned_of};
ghost use Rattle.cup.specs.Tables.{tables_of};
ghost use Rattle.cup.specs.Rewriting.{rewrite_number, rewrite_length, rewrite_buffer};

use cup::Tables;
use machine::State;
use simulator::{Loaded, Positioned, Ran, Written};

// Reads a plan file: the number, 0 where it is accepted, and the lowest faulty entry.
#[unsafe(no_mangle)]
pub extern "C" fn cup_read(file: &[u8], entry: &mut usize) -> usize
    ensures answer { result ≡ number_of (finding_of file.now) }
    ensures entry { entry.new ≡ entry_of (finding_of file.now) }
{
    cup::cup_read(file, entry)
}

// The section view: the length of the part, and where in the file it starts, an empty section too. Both are 0 if the file would be refused or the number
// is above 4.
#[unsafe(no_mangle)]
pub extern "C" fn cup_section(file: &[u8], number: usize, offset: &mut usize) -> usize
    ensures answer { result ≡ length (section_of file.now number) }
    ensures offset { offset.new ≡ section_start file.now number }
    ensures part { part file.now offset.new result ≡ section_of file.now number }
{
    cup::cup_section(file, number, offset)
}

// Reads a plan file and writes its plan into the buffer: the number, and the length of what is written. Where the number is not 0 the length is 0,
// and the buffer keeps every byte.
#[unsafe(no_mangle)]
pub extern "C" fn cup_rewrite(file: &[u8], buffer: &mut [u8], written: &mut usize) -> usize
    ensures answer { result ≡ rewrite_number file.now (length buffer.old) }
    ensures written { written.new ≡ rewrite_length file.now (length buffer.old) }
    ensures buffer { buffer.new ≡ rewrite_buffer file.now buffer.old }
{
    cup::cup_rewrite(file, buffer, written)
}

// The public call `load`.
#[unsafe(no_mangle)]
pub extern "C" fn cup_load(file: &[u8]) -> Loaded
    ensures { result ≡ load_of file.now }
{
    cup::cup_load(file)
}

// The public call `write`.
#[unsafe(no_mangle)]
pub extern "C" fn cup_write(state: State, buffer: &mut [u8]) -> Written
    ensures answer { result ≡ write_of state buffer.old }
    ensures buffer { buffer.new ≡ buffer_of_write state buffer.old }
{
    cup::cup_write(state, buffer)
}

// "A sound state": whether the state is one, so that no call declines it by 10.
#[unsafe(no_mangle)]
pub extern "C" fn cup_sound(state: State) -> bool
    ensures { result ≡ is_sound state }
{
    cup::cup_sound(state)
}

// The state that was handed in, so that a caller can see that both sides lay out its fields alike.
#[unsafe(no_mangle)]
pub extern "C" fn cup_echo(state: State) -> State
    ensures { result ≡ state }
{
    cup::cup_echo(state)
}

// The tables of a sound state, else all 0. For tests.
#[unsafe(no_mangle)]
pub extern "C" fn cup_tables(state: State) -> Tables
    ensures { result ≡ tables_of state }
{
    cup::cup_tables(state)
}

// The public call `run_lazy`.
#[unsafe(no_mangle)]
pub extern "C" fn cup_run_lazy(state: State, budget: u64, buffer: &mut [u8]) -> Ran
    ensures answer { result ≡ run_of Lazy state budget buffer.old }
    ensures buffer { buffer.new ≡ buffer_of_run Lazy state budget buffer.old }
{
    cup::cup_run_lazy(state, budget, buffer)
}

// The public call `run_eager`.
#[unsafe(no_mangle)]
pub extern "C" fn cup_run_eager(state: State, budget: u64, buffer: &mut [u8]) -> Ran
    ensures answer { result ≡ run_of Eager state budget buffer.old }
    ensures buffer { buffer.new ≡ buffer_of_run Eager state budget buffer.old }
{
    cup::cup_run_eager(state, budget, buffer)
}

// The public call `position`.
#[unsafe(no_mangle)]
pub extern "C" fn cup_position(state: State, integrator: usize) -> Positioned
    ensures { result ≡ positioned_of state integrator }
{
    cup::cup_position(state, integrator)
}
