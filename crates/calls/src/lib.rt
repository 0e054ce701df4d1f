// What the public calls answer, as structs. What each answers, lists of run calls, the promises and their proofs stand in specs; the calls themselves in the crate
// `simulator`.
// They are the C interface (include/cup.h), hence numbers and not a `Result` and an enum.
#![tactic(auto)]

use machine::State;

// Number 0 is acceptance; else it is one of document 01's refusals. A refused load gives the lowest faulty entry, and the idle state. Every
// other refused call gives 0 for its other figures, and the state that was handed in.
#[repr(C)]
#[derive(Clone, Copy)]
pub struct Loaded {
    pub number: usize,
    pub entry: usize,
    pub state: State,
}

#[repr(C)]
#[derive(Clone, Copy)]
pub struct Written {
    pub number: usize,
    pub length: usize,
    pub state: State,
}

#[repr(C)]
#[derive(Clone, Copy)]
pub struct Ran {
    pub number: usize,
    pub status: usize,
    pub integrator: usize,
    pub written: usize,
    pub state: State,
}

#[repr(C)]
#[derive(Clone, Copy)]
pub struct Positioned {
    pub number: usize,
    pub value: i64,
    pub state: State,
}
