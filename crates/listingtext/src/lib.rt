// The text of the listing program, as ASCII bytes at the start of a lent buffer: numbers, and the lines that they make up. Each function that writes answers
// the length of its text, `write_field` the place behind it, and the bytes behind the text keep their value. `write!` would say it shorter, but std leaves
// open whether a `Display` fails, and a listing that fits is to be printed whole.
#![tactic(auto)]

ghost use Rattle.std.specs.Prelude.{◌≡◌, ◌+◌, ◌*◌, ◌≤◌, List, ℕ, nat_abs, length};
ghost use Rattle.plan.specs.Numbers.{event_bytes};
ghost use Rattle.listingtext.specs.Decimal.{decimal, signed_decimal};
ghost use Rattle.listingtext.specs.Lines.{field, event_line, lines_of, end_line, refusal_line};
ghost use Rattle.listingtext.specs.Printed.{Printed, PrintedAt};

use itoa::Buffer;
use plan::EVENT_BYTES;
use words::{read_i32, read_u32};

// The ASCII code of the digit 0.
const DIGIT_0: u8 = 48;

// The digits of a number: those of its tenth first.
pub fn write_number(buffer: &mut [u8], number: u64) -> usize
    requires { length (decimal number) ≤ length buffer.old }
    ensures { Printed (decimal number) buffer.old result buffer.new }
{
    if number < 10 {
        buffer[0] = DIGIT_0 + number as u8;
        return 1;
    }
    let front = write_number(buffer, number / 10);
    buffer[front] = DIGIT_0 + (number % 10) as u8;
    front + 1
}

// How far a value is from 0.
fn magnitude(value: i64) -> u64
    ensures { result ≡ nat_abs value }
{
    value.unsigned_abs()
}

// A number that may be below 0.
pub fn write_signed(buffer: &mut [u8], value: i64) -> usize
    requires { length (signed_decimal value) ≤ length buffer.old }
    ensures { Printed (signed_decimal value) buffer.old result buffer.new }
{
    let size = magnitude(value);
    if value < 0 {
        buffer[0] = b'-';
        return 1 + write_number(&mut buffer[1..], size);
    }
    write_number(buffer, size)
}

// A number whose decimal digits are written into a lent buffer.
pub trait WrittenNumber: Copy {
    // Its digits, behind a '-' where it is below 0.
    ghost digits: { Self → List ℕ };

    fn write(self, buffer: &mut [u8]) -> usize
        requires { length (digits self) ≤ length buffer.old }
        ensures { Printed (digits self) buffer.old result buffer.new };
}

impl WrittenNumber for u64 {
    ghost digits = { decimal };

    fn write(self, buffer: &mut [u8]) -> usize {
        write_number(buffer, self)
    }
}

impl WrittenNumber for i64 {
    ghost digits = { signed_decimal };

    fn write(self, buffer: &mut [u8]) -> usize {
        write_signed(buffer, self)
    }
}

// A number whose decimal digits are handed out as a string, which stands in the buffer of itoa that is lent. The listing program writes bytes and does not
// call `format`. Other crates can. A string can't be lent as a slice of bytes to be written, so this is not `WrittenNumber`.
pub trait Number: Copy {
    // Its digits, behind a '-' where it is below 0.
    ghost digits: { Self → List ℕ };

    fn format(self, buffer: &mut Buffer) -> &str
        ensures { result.now ≡ digits self };
}

// Two impls of one body: the definition of the digits is another for each type, and the gate takes no impl that a macro writes.
impl Number for u64 {
    ghost digits = { decimal };

    #[tactic(auto, using(crate::proofs::Laws::Library::printing))]
    fn format(self, buffer: &mut Buffer) -> &str {
        buffer.format::<u64>(self)
    }
}

impl Number for i64 {
    ghost digits = { signed_decimal };

    #[tactic(auto, using(crate::proofs::Laws::Library::printing))]
    fn format(self, buffer: &mut Buffer) -> &str {
        buffer.format::<i64>(self)
    }
}

// From byte `at` on, a number and what ends it: a space or the line's end. What is answered is the place behind it.
fn write_field<D: WrittenNumber>(buffer: &mut [u8], at: usize, number: D, end: u8) -> usize
    requires { at + length (field (D.digits number) end) ≤ length buffer.old }
    ensures { PrintedAt at (field (D.digits number) end) buffer.old result buffer.new }
{
    let last = at + number.write(&mut buffer[at..]);
    buffer[last] = end;
    last + 1
}

// "each event as tick, source, value"
pub fn write_event(buffer: &mut [u8], tick: u64, source: u64, value: i64) -> usize
    requires { length (event_line tick source value) ≤ length buffer.old }
    ensures { Printed (event_line tick source value) buffer.old result buffer.new }
{
    let second = write_field(buffer, 0, tick, b' ');
    let third = write_field(buffer, second, source, b' ');
    write_field(buffer, third, value, b'\n')
}

// The lines of the first `count` events of a list of bytes.
pub fn write_lines(buffer: &mut [u8], events: &[u8], count: usize) -> usize
    requires { (event_bytes * count ≤ length events.now) × (length (lines_of events.now count) ≤ length buffer.old) }
    ensures { Printed (lines_of events.now count) buffer.old result buffer.new }
{
    let mut at = 0;
    for i in 0..count {
        let tick = read_u32(events, EVENT_BYTES * i);
        let source = read_u32(events, EVENT_BYTES * i + 4);
        let value = read_i32(events, EVENT_BYTES * i + 8);
        at += write_event(&mut buffer[at..], tick, source, value);
    }
    at
}

// A fixed text, byte for byte.
fn write_text(buffer: &mut [u8], text: &[u8]) -> usize
    requires { length text.now ≤ length buffer.old }
    ensures { Printed text.now buffer.old result buffer.new }
{
    buffer[..text.len()].copy_from_slice(text);
    text.len()
}

// "then "end", status, clock, instants, updates"
pub fn write_end(buffer: &mut [u8], status: u64, clock: u64, instants: u64, updates: u64) -> usize
    requires { length (end_line status clock instants updates) ≤ length buffer.old }
    ensures { Printed (end_line status clock instants updates) buffer.old result buffer.new }
{
    let first = write_text(buffer, b"end ");
    let second = write_field(buffer, first, status, b' ');
    let third = write_field(buffer, second, clock, b' ');
    let fourth = write_field(buffer, third, instants, b' ');
    write_field(buffer, fourth, updates, b'\n')
}

// "a declined plan prints "refused", number, entry"
pub fn write_refusal(buffer: &mut [u8], number: u64, entry: u64) -> usize
    requires { length (refusal_line number entry) ≤ length buffer.old }
    ensures { Printed (refusal_line number entry) buffer.old result buffer.new }
{
    let first = write_text(buffer, b"refused ");
    let second = write_field(buffer, first, number, b' ');
    write_field(buffer, second, entry, b'\n')
}
