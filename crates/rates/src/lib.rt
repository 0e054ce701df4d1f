// Rates. "Strictly ascending by target, then source": an integrator's own links stand together, so its rate is worked out over a range of links.
#![tactic(auto)]

ghost use Rattle.std.specs.Prelude.{◌≡◌, ◌+◌, ◌-◌, ◌≤◌, pos, leb};
ghost use Rattle.plan.specs.Numbers.{most_integrators, most_links};
ghost use Rattle.plan.specs.Lists.{nat_at, row, first_from};
ghost use Rattle.rates.specs.Links.{first_link, range_rate, RateReady, RatesReady};

use integers::floor_65536;
use plan::{INTEGRATORS, Links, SOURCES};

// Where each integrator's links begin, and where the last one's end.
pub const RANGES: usize = INTEGRATORS + 1;

// From link `from` on the first whose target is i or above, or the number of links.
// A walk and not `partition_point`: the clause is of any links, whether they ascend or not.
fn first_link_from(links: &Links, count: usize, i: usize, from: usize) -> usize
    requires { (from ≤ count) × (count ≤ most_links) }
    ensures { result ≡ first_from (λ e. leb i (nat_at links.now.targets e)) from (count - from) }
{
    (from..count)
        .find(|e| links.targets[*e] >= i)
        .unwrap_or(count)
}

// Where each integrator's links begin, by the first `count` links; the entry after the last integrator's is where its links end.
pub fn link_ranges(links: &Links, n: usize, count: usize) -> [usize; RANGES]
    requires { (n ≤ most_integrators) × (count ≤ most_links) }
    ensures { result ≡ row 0 (most_integrators + 1) (n + 1) (first_link links.now.targets count) }
{
    let mut ranges = [0; RANGES];
    let mut from = 0;
    for i in 0..=n {
        from = first_link_from(links, count, i, from);
        ranges[i] = from;
    }
    ranges
}

// "s = floor(sum of coefficient × source value over its links / 65,536)", over the links from .. to. No sum on the way is beyond 2^62.
// A `for`: std's `sum` of signed numbers says nothing that bounds it.
pub fn rate(links: &Links, from: usize, to: usize, values: &[i64; SOURCES]) -> i64
    requires { RateReady links.now values.now from to }
    ensures { result ≡ range_rate links.now values.now from to }
{
    let mut sum = 0;
    for e in from..to {
        sum += links.coefficients[e] * values[links.sources[e]];
    }
    floor_65536(sum)
}

// The rate of each integrator.
// By place: a slope is of two neighbours in `ranges`, and `windows` beside `iter_mut` says no more.
pub fn rates(
    links: &Links,
    n: usize,
    ranges: &[usize; RANGES],
    values: &[i64; SOURCES],
) -> [i64; INTEGRATORS]
    requires { (n ≤ most_integrators) × RatesReady n links.now ranges.now values.now }
    ensures { result ≡ row (pos 0) most_integrators n
        (λ i. range_rate links.now values.now (nat_at ranges.now i) (nat_at ranges.now (i + 1))) }
{
    let mut slopes = [0; INTEGRATORS];
    for i in 0..n {
        slopes[i] = rate(links, ranges[i], ranges[i + 1], values);
    }
    slopes
}
