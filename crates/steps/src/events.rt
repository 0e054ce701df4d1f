// "Events of an instant: due integrators and commanded inputs by ascending source number, 12 bytes each: tick, source, signed value."
ghost use Rattle.std.specs.Prelude.{◌≡◌, ◌+◌, length};
ghost use Rattle.steps.specs.Events.{events_in, put_at, EventsReady};

use bitset::Mask;
use plan::{EVENT_BYTES, SOURCES};
use words::write_triple;

// From byte `at` on, one event for each of the changed sources. What is answered is the place behind them.
// `at` beside the buffer, not a part of it: the clause says of the whole buffer that the bytes before `at` and behind the events keep their value.
pub fn write_events(
    t: u32,
    changed: u64,
    values: &[i64; SOURCES],
    buffer: &mut [u8],
    at: usize,
) -> usize
    requires { EventsReady t changed values.now at (length buffer.old) }
    ensures end { result ≡ at + length (events_in t changed values.now) }
    ensures buffer { buffer.new ≡ put_at buffer.old at (events_in t changed values.now) }
{
    let mut end = at;
    for source in changed.members() {
        write_triple(&mut buffer[end..], t as usize, source, values[source]);
        end += EVENT_BYTES;
    }
    end
}
