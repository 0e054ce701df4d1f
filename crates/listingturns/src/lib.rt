// The listing program's work: "loads them, runs lazily with budget 64 until status 1 or 2", a turn for each run, whose text the program writes.
#![tactic(auto)]

ghost use Rattle.std.specs.Prelude.{◌≡◌, ◌≤◌, length, IsUtf8};
ghost use Rattle.plan.specs.Numbers.{listing_budget};
ghost use Rattle.machine.specs.Sound.{Sound};
ghost use Rattle.machine.specs.declared.Engine.TheVariants.{Lazy};
ghost use Rattle.calls.specs.Calls.{written_over, ran_events};
ghost use Rattle.listingturns.specs.Turns.{event_space, text_space, refusal_space, turn_text, turn_of, begin_text, begin_of};

use arrayvec::ArrayString;
use listingtext::{write_end, write_lines, write_refusal};
use machine::State;
use plan::{ACCEPTED, EVENT_BYTES, INPUTS, INTEGRATORS, LISTING_BUDGET, PAUSED};
use simulator::{load, run_lazy};
use std::str;

// What one run of the listing program can write, in bytes of events.
pub const EVENT_SPACE: usize = LISTING_BUDGET as usize * (INTEGRATORS + INPUTS) * EVENT_BYTES;

// The most characters of an event's line, and of the end line.
const EVENT_LINE_BYTES: usize = 26;

const END_LINE_BYTES: usize = 40;

// The room for the text of one run: a line for each event, and an end line.
pub const TEXT_SPACE: usize = LISTING_BUDGET as usize * (INTEGRATORS + INPUTS) * EVENT_LINE_BYTES
    + END_LINE_BYTES;

// The most characters of a refusal's line.
const REFUSAL_LINE_BYTES: usize = 14;

// A string with room for the text of one run.
pub type Text = ArrayString<TEXT_SPACE>;

// What follows a turn: one turn more or none, from the state behind it.
#[derive(Clone, Copy)]
pub enum Turn {
    More(State),
    Last(State),
}

// Before the first turn: "a declined plan prints "refused", number, entry", and no turn follows. Answers how long the text is, too.
// The listing program runs this.
pub fn begin_into(file: &[u8], text: &mut [u8]) -> (usize, Turn)
    requires { refusal_space ≤ length text.old }
    ensures size { result.0 ≡ length (begin_text file.now) }
    ensures answer { result.1 ≡ begin_of file.now }
    ensures text { text.new ≡ written_over (begin_text file.now) text.old }
{
    let loaded = load(file);
    let state = loaded.state;
    if loaded.number == ACCEPTED {
        return (0, Turn::More(state));
    }
    let size = write_refusal(text, loaded.number as u64, loaded.entry as u64);
    (size, Turn::Last(state))
}

// One run: "prints each event as tick, source, value", and where the status is 1 or 2 "then "end", status, clock, instants, updates". A
// sound state and these lengths suffice for the run to be accepted and for the text to fit. Answers how long the text is, too.
// The listing program runs this.
pub fn take_turn_into(state: State, events: &mut [u8], text: &mut [u8]) -> (usize, Turn)
    requires sound { Sound state }
    requires room { (event_space ≤ length events.old) × (text_space ≤ length text.old) }
    ensures size { result.0 ≡ length (turn_text state) }
    ensures answer { result.1 ≡ turn_of state }
    ensures events { events.new ≡ written_over (ran_events Lazy state listing_budget) events.old }
    ensures text { text.new ≡ written_over (turn_text state) text.old }
{
    let ran = run_lazy(state, LISTING_BUDGET, events);
    let lines = write_lines(text, events, ran.written / EVENT_BYTES);
    let state_after = ran.state;
    if ran.status == PAUSED {
        return (lines, Turn::More(state_after));
    }
    let clock = state_after.run.clocks.clock as u64;
    let end = write_end(
        &mut text[lines..],
        ran.status as u64,
        clock,
        state_after.run.clocks.instants,
        state_after.run.clocks.updates,
    );
    (lines + end, Turn::Last(state_after))
}

// Puts what was written into the string, in place of what stood there.
fn set_text<const N: usize>(text: &mut ArrayString<N>, written: &[u8])
    requires utf8 { IsUtf8 written.now }
    requires room { length written.now ≤ N }
    ensures { text.new.bytes ≡ written.now }
{
    text.clear();
    if let Ok(string) = str::from_utf8(written) {
        text.push_str(string);
    }
}

// The same as `begin_into`, with the text as a string of a fixed room, for other crates. A string can't be lent as a slice of bytes to be written, so
// there are two calls.
pub fn begin<const N: usize>(file: &[u8], text: &mut ArrayString<N>) -> Turn
    requires { refusal_space ≤ N }
    ensures answer { result ≡ begin_of file.now }
    ensures text { text.new.bytes ≡ begin_text file.now }
{
    let mut refusal = [0; REFUSAL_LINE_BYTES];
    let (size, turn) = begin_into(file, &mut refusal);
    set_text(text, &refusal[..size]);
    turn
}

// The same as `take_turn_into`, with the text as a string of a fixed room, for other crates.
pub fn take_turn<const N: usize>(state: State, events: &mut [u8], text: &mut ArrayString<N>) -> Turn
    requires sound { Sound state }
    requires room { (event_space ≤ length events.old) × (text_space ≤ N) }
    ensures answer { result ≡ turn_of state }
    ensures events { events.new ≡ written_over (ran_events Lazy state listing_budget) events.old }
    ensures text { text.new.bytes ≡ turn_text state }
{
    let mut lines = [0; TEXT_SPACE];
    let (size, turn) = take_turn_into(state, events, &mut lines);
    set_text(text, &lines[..size]);
    turn
}
