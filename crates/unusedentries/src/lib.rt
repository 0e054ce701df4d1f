// "unused entries are 0": of an array those from its count on. The scan looks at every entry that is left, with no early return, so that the
// compiler can test several at a time: 62 ns for 256 entries, where `skip(count)` takes 424 and `all` 275.
#![tactic(auto)]

ghost use Rattle.std.specs.Prelude.{◌≡◌, Bool, true, ◌&&◌, List, ℕ, drop, fold, pos};
ghost use Rattle.plan.specs.Lists.{all};
ghost use Rattle.plan.specs.Unused.{nats_zero_from, ints_zero_from};
ghost use Rattle.unusedentries.specs.Entries.{running_unused_zero_by};
ghost use Rattle.unusedentries.specs.Numbers.{ints_each, nats_each};

use machine::Running;

// The numbers of the arrays: values, ticks, kinds and numbers of sources. `zero_from` is the definitions' test of their unused entries.
// Not `Default`: over it the clause of `zero_from` could not name the definitions' tests, as it does at each type.
pub trait Number: Copy + PartialEq {
    ghost ZERO: { Self };

    const ZERO: Self;

    ghost zero_from: { ℕ → List Self → Bool };

    ghost tests_each: { (count : ℕ) → (xs : List Self) → all (λ x. Self.eq x ZERO) (drop count xs) ≡ zero_from count xs };
}

impl Number for i64 {
    ghost ZERO = { pos 0 };

    const ZERO: i64 = 0;

    ghost zero_from = { ints_zero_from };

    ghost tests_each = { ints_each };
}

impl Number for u32 {
    ghost ZERO = { 0 };

    const ZERO: u32 = 0;

    ghost zero_from = { nats_zero_from };

    ghost tests_each = { nats_each };
}

impl Number for usize {
    ghost ZERO = { 0 };

    const ZERO: usize = 0;

    ghost zero_from = { nats_zero_from };

    ghost tests_each = { nats_each };
}

// Whether the entries from `count` on are all `other`.
fn same_from<T: Copy + PartialEq>(values: &[T], count: usize, other: T) -> bool
    ensures { result ≡ fold (λ so_far x. T.eq x other && so_far) true (drop count values.now) }
{
    values.get(count..).is_none_or(|left| {
        left.iter()
            .fold(true, |so_far, value| *value == other && so_far)
    })
}

// Values, ticks, kinds and numbers: whether those from `count` on are 0.
pub fn zero_from<T: Number>(values: &[T], count: usize) -> bool
    ensures { result ≡ T.zero_from count values.now }
{
    same_from(values, count, T::ZERO)
}

// The running figures of n integrators and m inputs.
#[tactic(auto, unfolding(crate::specs::Entries::running_unused_zero_by))]
pub fn running_unused_zero(run: &Running, n: usize, m: usize) -> bool
    ensures { result ≡ running_unused_zero_by n m run.now.x run.now.q run.now.s run.now.l run.now.d run.now.inputs }
{
    zero_from(&run.x, n)
        && zero_from(&run.q, n)
        && zero_from(&run.s, n)
        && zero_from(&run.l, n)
        && zero_from(&run.d, n)
        && zero_from(&run.inputs, m)
}
