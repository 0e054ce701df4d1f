// "The listing program reads at most 4,493 bytes of standard input": what is read goes to `listingturns`, and the text of each turn to standard output.
#![tactic(auto)]

ghost use Rattle.std.specs.Prelude.{◌≡◌, ◌≤◌, IfOk, length};
ghost use Rattle.plan.specs.Numbers.{listing_input};
ghost use Rattle.listingturns.specs.Turns.{event_space, text_space};

use listingturns::{EVENT_SPACE, TEXT_SPACE, Turn, begin_into, take_turn_into};
use plan::LISTING_INPUT;
use std::io;
use std::io::Read;

// The bytes that are read: one more than the longest file that is accepted.
fn file_space() -> [u8; LISTING_INPUT]
    ensures { listing_input ≡ length result }
{
    [0; LISTING_INPUT]
}

// The events of 64 instants: 64 × 40 × 12 bytes.
fn event_space() -> [u8; EVENT_SPACE]
    ensures { event_space ≡ length result }
{
    [0; EVENT_SPACE]
}

// Their lines and the end line: 64 × 40 × 26 + 40 characters.
fn text_space() -> [u8; TEXT_SPACE]
    ensures { text_space ≡ length result }
{
    [0; TEXT_SPACE]
}

// Reads until the buffer is full or the input ends, and answers how many bytes stand at the buffer's start. A loop, since `read` may answer less,
// std's `read_exact` fails on a shorter input, and `read_to_end` wants a heap.
fn read_full(input: &mut impl Read, buffer: &mut [u8]) -> io::Result<usize>
    ensures { IfOk result (λ got. got ≤ length buffer.new) }
{
    let mut done = 0;
    while done < buffer.len() {
        let got = input.read(&mut buffer[done..])?;
        if got == 0 {
            break;
        }
        done += got;
    }
    Ok(done)
}

// A read or a write that fails ends the program with its error.
fn main(rt: HostRuntime) -> io::Result<()> {
    let mut file = file_space();
    let got = read_full(&mut rt.stdin(), &mut file)?;
    let mut records = event_space();
    let events: &mut [u8] = &mut records;
    let mut lines = text_space();
    let text: &mut [u8] = &mut lines;
    let (size, mut turn) = begin_into(&file[..got], text);
    rt.write_all(&text[..size])?;
    while let Turn::More(state) = turn {
        let (size, next) = take_turn_into(state, events, text);
        rt.write_all(&text[..size])?;
        turn = next;
    }
    Ok(())
}
