// "A sound state": the test behind refusal 10, as a call of its own. The state is lent where it lies.
ghost use Rattle.std.specs.Prelude.{◌≡◌};
ghost use Rattle.machine.specs.SoundTest.{is_sound};

use machine::State;
use soundness::test_state;

// Whether a state is sound, so that no call declines it by 10.
pub fn is_sound(state: State) -> bool
    ensures { result ≡ is_sound state }
{
    test_state(&state.plan, &state.run).is_some()
}
