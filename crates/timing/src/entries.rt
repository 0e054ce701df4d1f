// Commands in the order of their ticks: the next one above a clock, and its tick.
// Commands and their count, not a plan: they serve any list of entries (DECISIONS, 92).
ghost use Rattle.std.specs.Prelude.{◌≡◌, true, ◌≤◌};
ghost use Rattle.plan.specs.Numbers.{most_commands};
ghost use Rattle.machine.specs.Entries.{next_entry, entry_tick};

use machine::State;
use plan::Commands;

// The first of `count` commands with a tick above the clock, or `count` if there is none. Every command counts.
pub fn next_entry(commands: &Commands, count: usize, clock: u32) -> usize
    requires { count ≤ most_commands }
    ensures { result ≡ next_entry commands.now.ticks (λ e. true) count clock }
{
    (0..count)
        .find(|e| commands.ticks[*e] > clock)
        .unwrap_or(count)
}

// The tick of the command that is next, or never where none is left.
// Never is a tick and no `Option`, as in the states that C fills, so that the earlier of two ticks is their `min`.
#[tactic(auto, unfolding(machine::specs::Entries::entry_tick))]
pub fn entry_tick(commands: &Commands, count: usize, next: usize) -> u32
    requires { count ≤ most_commands }
    ensures { result ≡ entry_tick commands.now.ticks count next }
{
    if next < count {
        return commands.ticks[next];
    }
    State::NEVER
}
