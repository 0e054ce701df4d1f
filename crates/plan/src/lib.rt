// The plan of a cup: what document 01's plan file says, number for number, with 0 in the unused entries. And document 01's numbers by name.
// Columns of fixed width, with a count beside them: the C interface (include/cup.h) lays a plan out so, and there is no heap.
#![tactic(auto)]

mod kinds;
mod numbers;

ghost use Rattle.std.specs.Prelude.{◌≡◌, [], ◌∷◌};
ghost use Rattle.plan.specs.Idle.{idle_plan};
ghost use Rattle.plan.specs.Refusals.{refusal_number, refusal_entry};

pub use kinds::Kind;
pub use numbers::{
    ACCEPTED, COMMAND_BYTES, COMMANDS, EVENT_BYTES, FINISHED, HEADER_BYTES, INPUT_BYTES, INPUTS,
    INTEGRATOR_BYTES, INTEGRATORS, KIND_COMPARISON, KIND_DIFFERENCE, KIND_LIMIT, KIND_PRODUCT,
    LARGEST_BUDGET, LARGEST_COEFFICIENT, LARGEST_HORIZON, LINK_BYTES, LINKS, LISTING_BUDGET,
    LISTING_INPUT, LONGEST_FILE, M, NEVER, NODE_BYTES, NODES, PAUSED, RANGE, REFUSED_BUDGET,
    REFUSED_COMMAND, REFUSED_HORIZON, REFUSED_INPUT, REFUSED_INTEGRATOR, REFUSED_INTEGRATOR_NUMBER,
    REFUSED_LINK, REFUSED_NODE, REFUSED_OFFSETS, REFUSED_RUN_BUFFER, REFUSED_SHORT, REFUSED_SIZES,
    REFUSED_UNSOUND, REFUSED_WRITE_BUFFER, SECTION_COMMANDS, SECTION_INPUTS, SECTION_INTEGRATORS,
    SECTION_LINKS, SECTION_NODES, SECTIONS, SOURCES,
};

// How many entries each section has: n integrators, m inputs, k nodes, links, commands.
// No invariant holds their limits: C fills states by hand, with any numbers. So the functions that need a limit ask for it.
#[repr(C)]
#[derive(Clone, Copy)]
pub struct Counts {
    pub n: usize,
    pub m: usize,
    pub k: usize,
    pub links: usize,
    pub commands: usize,
}

#[repr(C)]
#[derive(Clone, Copy)]
pub struct Integrators {
    pub starts: [i64; INTEGRATORS],
    pub quanta: [i64; INTEGRATORS],
}

// The first value of each input.
#[repr(C)]
#[derive(Clone, Copy)]
pub struct Inputs {
    pub firsts: [i64; INPUTS],
}

// "kind, A, B, signed lo, signed hi": A and B are source numbers.
#[repr(C)]
#[derive(Clone, Copy)]
pub struct Nodes {
    pub kinds: [usize; NODES],
    pub a: [usize; NODES],
    pub b: [usize; NODES],
    pub lows: [i64; NODES],
    pub highs: [i64; NODES],
}

// "target integrator, source, signed coefficient"
#[repr(C)]
#[derive(Clone, Copy)]
pub struct Links {
    pub targets: [usize; LINKS],
    pub sources: [usize; LINKS],
    pub coefficients: [i64; LINKS],
}

// "tick .., input number .., signed value"
#[repr(C)]
#[derive(Clone, Copy)]
pub struct Commands {
    pub ticks: [u32; COMMANDS],
    pub inputs: [usize; COMMANDS],
    pub values: [i64; COMMANDS],
}

#[repr(C)]
#[derive(Clone, Copy)]
pub struct Plan {
    pub horizon: u32,
    pub counts: Counts,
    pub integrators: Integrators,
    pub inputs: Inputs,
    pub nodes: Nodes,
    pub links: Links,
    pub commands: Commands,
}

// What document 01 refuses, in the order of its numbers: 1 to 9 a plan file, 10 to 14 a call. Those of an entry hold the entry's number, counted from
// 0. What a check finds is a `Result<(), Refusal>`.
#[derive(Clone, Copy, Debug, PartialEq, Eq)]
pub enum Refusal {
    Short,
    Offsets,
    Sizes,
    Horizon,
    Integrator(usize),
    Input(usize),
    Node(usize),
    Link(usize),
    Command(usize),
    Unsound,
    Budget,
    RunBuffer,
    WriteBuffer,
    IntegratorNumber,
}

impl Counts {
    // The counts in the order of the sections.
    pub fn in_order(self) -> [usize; SECTIONS]
        ensures { result ≡ self.n ∷ self.m ∷ self.k ∷ self.links ∷ self.commands ∷ [] }
    {
        [self.n, self.m, self.k, self.links, self.commands]
    }
}

impl Refusal {
    // Document 01's number: the C interface has it as a number, so the numbers stay constants.
    #[tactic(auto, unfolding(crate::specs::Refusals::refusal_number))]
    pub fn number(self) -> usize
        ensures { result ≡ refusal_number self }
    {
        match self {
            Self::Short => REFUSED_SHORT,
            Self::Offsets => REFUSED_OFFSETS,
            Self::Sizes => REFUSED_SIZES,
            Self::Horizon => REFUSED_HORIZON,
            Self::Integrator(_) => REFUSED_INTEGRATOR,
            Self::Input(_) => REFUSED_INPUT,
            Self::Node(_) => REFUSED_NODE,
            Self::Link(_) => REFUSED_LINK,
            Self::Command(_) => REFUSED_COMMAND,
            Self::Unsound => REFUSED_UNSOUND,
            Self::Budget => REFUSED_BUDGET,
            Self::RunBuffer => REFUSED_RUN_BUFFER,
            Self::WriteBuffer => REFUSED_WRITE_BUFFER,
            Self::IntegratorNumber => REFUSED_INTEGRATOR_NUMBER,
        }
    }

    // The faulty entry, 0 for a refusal that is of none.
    #[tactic(auto, unfolding(crate::specs::Refusals::refusal_entry))]
    pub fn entry(self) -> usize
        ensures { result ≡ refusal_entry self }
    {
        match self {
            Self::Integrator(entry)
            | Self::Input(entry)
            | Self::Node(entry)
            | Self::Link(entry)
            | Self::Command(entry) => entry,
            _ => 0,
        }
    }
}

impl Plan {
    // One integrator with start 0 and quantum 1, nothing else, horizon 1.
    // The zeros stand here and in the readers: std derives no `Default` for arrays above 32 entries, and five by hand would be no shorter.
    pub fn idle() -> Self
        ensures { result ≡ idle_plan }
    {
        let mut quanta = [0; INTEGRATORS];
        quanta[0] = 1;
        Self {
            horizon: 1,
            counts: Counts {
                n: 1,
                m: 0,
                k: 0,
                links: 0,
                commands: 0,
            },
            integrators: Integrators {
                starts: [0; INTEGRATORS],
                quanta,
            },
            inputs: Inputs {
                firsts: [0; INPUTS],
            },
            nodes: Nodes {
                kinds: [0; NODES],
                a: [0; NODES],
                b: [0; NODES],
                lows: [0; NODES],
                highs: [0; NODES],
            },
            links: Links {
                targets: [0; LINKS],
                sources: [0; LINKS],
                coefficients: [0; LINKS],
            },
            commands: Commands {
                ticks: [0; COMMANDS],
                inputs: [0; COMMANDS],
                values: [0; COMMANDS],
            },
        }
    }
}
