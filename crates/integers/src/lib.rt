// Division of whole numbers that rounds down or up, and a value limited to a range.
#![tactic(auto)]

ghost use Rattle.std.specs.Prelude.{◌≡◌, ◌<◌};
ghost use Rattle.integers.specs.Division.{floor65536, ceil_div};
ghost use Rattle.integers.specs.Range.{limited};

// floor(v / 65,536): rounded towards minus infinity, where `/` would round towards zero. It is built as one shift.
#[tactic(auto, using(crate::proofs::Laws::Division::floor_euclid))]
pub fn floor_65536(v: i64) -> i64
    ensures { result ≡ floor65536 v }
{
    v.div_euclid(65536)
}

// a / b rounded up. It has no sum that can be too large for 64 bits, as a + (b - 1) can.
#[tactic(auto, using(crate::proofs::Laws::Division::div_ceil_is))]
pub fn divide_up(a: u64, b: u64) -> u64
    requires { 0 < b }
    ensures { result ≡ ceil_div a b }
{
    a.div_ceil(b)
}

// v limited to lo..hi. Where lo is above hi the lower end is tried first, as in the definition: std's `clamp` asks that lo is not above hi, and `max` and
// `min` would answer otherwise there.
#[tactic(auto, unfolding(crate::specs::Range::limited))]
pub fn limit(v: i64, lo: i64, hi: i64) -> i64
    ensures { result ≡ limited lo hi v }
{
    if v < lo {
        lo
    } else if v > hi {
        hi
    } else {
        v
    }
}
