// 2. "Commands of tick t set their inputs."
ghost use Rattle.std.specs.Prelude.{◌≡◌, ◌-◌};
ghost use Rattle.steps.specs.Entries.{after_entries, after_entries_from, EntriesInRange};

use bitset::Mask;
use plan::{Commands, SOURCES};

// The inputs that commands of the tick set, by their numbers, and the next command after these.
#[derive(Clone, Copy)]
pub struct Obeyed {
    pub numbers: u32,
    pub next: usize,
}

// Of the first `count` commands those of tick t from `next` on. Input j's value stands in `values` at its source number, first + j.
// Six parameters, and not the plan in place of three: it serves any list of entries (DECISIONS, 92). By place: three columns in step.
pub fn obey_entries(
    commands: &Commands,
    first: usize,
    count: usize,
    t: u32,
    values: &mut [i64; SOURCES],
    next: usize,
) -> Obeyed
    requires { EntriesInRange first count commands.now.inputs next }
    ensures { after_entries values.new result.numbers result.next
        ≡ after_entries_from first commands.now.ticks commands.now.inputs commands.now.values t next (count - next)
        (after_entries values.old 0 next) }
{
    let mut numbers: u32 = 0;
    for e in next..count {
        if commands.ticks[e] != t {
            return Obeyed { numbers, next: e };
        }
        let j = commands.inputs[e];
        values[first + j] = commands.values[e];
        numbers = numbers.with_bit(j);
    }
    Obeyed {
        numbers,
        next: count,
    }
}
