// The state of the machine of document 01: the plan, and the running figures.
#![tactic(auto)]

ghost use Rattle.std.specs.Prelude.{◌≡◌, pos};
ghost use Rattle.plan.specs.Numbers.{never};
ghost use Rattle.machine.specs.Start.{idle_state};
ghost use Rattle.machine.specs.Status.{status_number, status_integrator, is_paused};

use plan::{FINISHED, INPUTS, INTEGRATORS, M, NEVER, PAUSED, Plan, RANGE};

// The clock, the number of the next command, instants and updates.
#[repr(C)]
#[derive(Clone, Copy)]
pub struct Clocks {
    pub clock: u32,
    pub next: usize,
    pub instants: u64,
    pub updates: u64,
}

// Per integrator position x, output q, slope s, last-moved tick l and due tick d, 0 in the unused entries; the input values; the clock and the counts.
#[repr(C)]
#[derive(Clone, Copy)]
pub struct Running {
    pub x: [i64; INTEGRATORS],
    pub q: [i64; INTEGRATORS],
    pub s: [i64; INTEGRATORS],
    pub l: [u32; INTEGRATORS],
    pub d: [u32; INTEGRATORS],
    pub inputs: [i64; INPUTS],
    pub clocks: Clocks,
}

// What an instant moves: positions, slopes, last-moved ticks and due ticks, as in `Running`.
// No part of `Running`: the C interface has its fields in another order.
#[derive(Clone, Copy)]
pub struct Motion {
    pub x: [i64; INTEGRATORS],
    pub s: [i64; INTEGRATORS],
    pub l: [u32; INTEGRATORS],
    pub d: [u32; INTEGRATORS],
}

#[repr(C)]
#[derive(Clone, Copy)]
pub struct State {
    pub plan: Plan,
    pub run: Running,
}

// The lazy engine moves the integrators that are due or reached, the eager engine all.
#[derive(Clone, Copy)]
pub enum Engine {
    Lazy,
    Eager,
}

// "Status is read from the state": paused, finished, or range with the lowest integrator that bars the next instant.
#[derive(Clone, Copy)]
pub enum Status {
    Paused,
    Finished,
    Range(usize),
}

impl Status {
    // 0 paused, 1 finished, 2 range
    #[tactic(auto, unfolding(crate::specs::Status::status_number))]
    pub fn number(self) -> usize
        ensures { result ≡ status_number self }
    {
        match self {
            Status::Paused => PAUSED,
            Status::Finished => FINISHED,
            Status::Range(_) => RANGE,
        }
    }

    // the integrator of a range, and else 0
    #[tactic(auto, unfolding(crate::specs::Status::status_integrator))]
    pub fn integrator(self) -> usize
        ensures { result ≡ status_integrator self }
    {
        match self {
            Status::Range(i) => i,
            Status::Paused | Status::Finished => 0,
        }
    }

    #[tactic(auto, unfolding(crate::specs::Status::is_paused))]
    pub fn is_paused(self) -> bool
        ensures { result ≡ is_paused self }
    {
        matches!(self, Status::Paused)
    }
}

impl State {
    // The numbers M and never of the crate `plan`, as constants of the state type.
    pub const M: i64 = M;

    pub const NEVER: u32 = NEVER;

    // A constant carries no contract (DECISIONS, 14): the next two say what these are.
    pub fn largest() -> i64
        ensures { result ≡ pos Rattle.plan.specs.Numbers.M }
    {
        State::M
    }

    pub fn never() -> u32
        ensures { result ≡ never }
    {
        State::NEVER
    }

    // One integrator that never moves: the start of the plan that `Plan::idle` gives.
    pub fn idle() -> Self
        ensures { result ≡ idle_state }
    {
        let plan = Plan::idle();
        let mut d = [0; INTEGRATORS];
        d[0] = State::NEVER;
        let run = Running {
            x: [0; INTEGRATORS],
            q: [0; INTEGRATORS],
            s: [0; INTEGRATORS],
            l: [0; INTEGRATORS],
            d,
            inputs: [0; INPUTS],
            clocks: Clocks {
                clock: 0,
                next: 0,
                instants: 0,
                updates: 0,
            },
        };
        Self { plan, run }
    }
}
