// The rule of one entry of each section, on the entry's own numbers: its limits, and its order, each a function of its own.
// The numbers come one by one: the plan's columns hold no entry as a whole, and a struct would be put together for the one call.
ghost use Rattle.std.specs.Prelude.{◌≡◌, ◌&&◌, ◌<◌, eqb, ltb};
ghost use Rattle.integers.specs.Parts.{∣◌∣};
ghost use Rattle.integers.specs.Range.{within};
ghost use Rattle.plan.specs.Numbers.{most_links, most_commands};
ghost use Rattle.plan.specs.Tests.{horizon_kept, integrator_test, node_test, link_limits_test, command_limits_test, ascends_at};

use plan::{Commands, Kind, LARGEST_COEFFICIENT, LARGEST_HORIZON, Links, M};

// A value within ±M.
#[tactic(auto, unfolding(integers::specs::Range::within))]
pub fn value_within_m(value: i64) -> bool
    ensures { result ≡ within Rattle.plan.specs.Numbers.M value }
{
    (-M..=M).contains(&value)
}

// "horizon (a tick, 1 to 2,000,000,000)"
#[tactic(auto, unfolding(plan::specs::Tests::horizon_kept))]
pub fn horizon_kept(horizon: u32) -> bool
    ensures { result ≡ horizon_kept horizon }
{
    (1..=LARGEST_HORIZON).contains(&horizon)
}

// "signed start within ±M; quantum 1 to M"
pub fn integrator_test(start: i64, quantum: i64) -> bool
    ensures { result ≡ integrator_test start quantum }
{
    value_within_m(start) && (1..=M).contains(&quantum)
}

// What kinds 0 and 1 ask besides a rule for A: B names a source below the node's own, "with lo and hi 0".
fn arithmetic_kept(own: usize, b: usize, lo: i64, hi: i64) -> bool
    ensures { result ≡ (ltb b own && eqb ∣ lo ∣ 0 && eqb ∣ hi ∣ 0) }
{
    b < own && lo == 0 && hi == 0
}

// The rule of a node's kind. The node's own source number is `own`: "A and B, where used, name integrators, inputs or lower-numbered nodes."
#[tactic(auto, unfolding(plan::specs::Tests::node_test, plan::specs::Kinds::kind_of))]
pub fn node_test(own: usize, kind: usize, a: usize, b: usize, lo: i64, hi: i64) -> bool
    ensures { result ≡ node_test own kind a b lo hi }
{
    if own <= a {
        return false;
    }
    match Kind::try_from(kind) {
        Ok(Kind::Difference | Kind::Product) => arithmetic_kept(own, b, lo, hi),
        Ok(Kind::Limit) => value_within_m(lo) && value_within_m(hi) && b == 0 && lo <= hi,
        Ok(Kind::Comparison) => value_within_m(lo) && value_within_m(hi) && b < own,
        Err(()) => false,
    }
}

// "target integrator, source, signed coefficient, not 0, within ±16,777,216", with n integrators and `all` sources
#[tactic(auto, unfolding(integers::specs::Range::within))]
pub fn link_limits_test(
    n: usize,
    all: usize,
    target: usize,
    source: usize,
    coefficient: i64,
) -> bool
    ensures { result ≡ link_limits_test n all target source coefficient }
{
    target < n
        && source < all
        && coefficient != 0
        && (-LARGEST_COEFFICIENT..=LARGEST_COEFFICIENT).contains(&coefficient)
}

// "tick 1 to horizon, input number below m, signed value within ±M"
pub fn command_limits_test(horizon: u32, m: usize, tick: u32, input: usize, value: i64) -> bool
    ensures { result ≡ command_limits_test horizon m tick input value }
{
    (1..=horizon).contains(&tick) && input < m && value_within_m(value)
}

// "Strictly ascending by target, then source": a link stands above its predecessor, if it has one.
#[tactic(auto, unfolding(plan::specs::Tests::pair_ascends))]
pub fn link_ascends(links: &Links, link: usize) -> bool
    requires { link < most_links }
    ensures { result ≡ ascends_at links.now.targets links.now.sources link }
{
    link == 0
        || (links.targets[link - 1], links.sources[link - 1])
            < (links.targets[link], links.sources[link])
}

// "Strictly ascending by tick, then input": a command stands above its predecessor, if it has one.
// Apart from `link_ascends`: one function of both would need a trait that reads u32 and usize as numbers, and be longer than the two.
#[tactic(auto, unfolding(plan::specs::Tests::pair_ascends))]
pub fn command_ascends(commands: &Commands, command: usize) -> bool
    requires { command < most_commands }
    ensures { result ≡ ascends_at commands.now.ticks commands.now.inputs command }
{
    command == 0
        || (commands.ticks[command - 1], commands.inputs[command - 1])
            < (commands.ticks[command], commands.inputs[command])
}
