// The numbers of document 01 by name. specs/Numbers has each of them again: a definition could cite a constant of the code, but then a wrong constant
// would be a wrong definition with it. proofs/Laws/Constants says that the two are equal. The numbers of sections, kinds, refusals and statuses stay numbers:
// the plan file and the C interface (include/cup.h) have them so.

// "Let M = 2^30 = 1,073,741,824."
pub const M: i64 = 1073741824;

// "within ±16,777,216"
pub const LARGEST_COEFFICIENT: i64 = 16777216;

// "horizon (a tick, 1 to 2,000,000,000)"
pub const LARGEST_HORIZON: u32 = 2000000000;

// The due tick of an integrator that does not move: the largest u32, above every tick that can occur.
pub const NEVER: u32 = 4294967295;

// "A run's budget is above 1,024", which is refusal 11.
pub const LARGEST_BUDGET: u64 = 1024;

// "runs lazily with budget 64", the listing program.
pub const LISTING_BUDGET: u64 = 64;

// The most integrators, inputs, nodes, links and commands of a plan: the widths of its arrays.
pub const INTEGRATORS: usize = 32;

pub const INPUTS: usize = 8;

pub const NODES: usize = 16;

pub const LINKS: usize = 256;

pub const COMMANDS: usize = 64;

// The width of a table with an entry for each source. Integrators have the source numbers 0 to n−1, inputs n to n+m−1, nodes those from n+m on: 56 at the
// most.
pub const SOURCES: usize = 64;

// "Sections in order": the number of each, in the header and for the section view.
pub const SECTION_INTEGRATORS: usize = 0;

pub const SECTION_INPUTS: usize = 1;

pub const SECTION_NODES: usize = 2;

pub const SECTION_LINKS: usize = 3;

pub const SECTION_COMMANDS: usize = 4;

// "Node kinds": the number of each; specs/Numbers has document 01's words for each.
pub const KIND_DIFFERENCE: usize = 0;

pub const KIND_PRODUCT: usize = 1;

pub const KIND_LIMIT: usize = 2;

pub const KIND_COMPARISON: usize = 3;

// How many sections a plan file has.
pub const SECTIONS: usize = 5;

// "Header, 44 bytes"
pub const HEADER_BYTES: usize = 44;

// The bytes of an entry of each section.
pub const INTEGRATOR_BYTES: usize = 8;

pub const INPUT_BYTES: usize = 4;

pub const NODE_BYTES: usize = 20;

pub const LINK_BYTES: usize = 12;

pub const COMMAND_BYTES: usize = 12;

// A file with the most entries of every section.
pub const LONGEST_FILE: usize = HEADER_BYTES
    + INTEGRATOR_BYTES * INTEGRATORS
    + INPUT_BYTES * INPUTS
    + NODE_BYTES * NODES
    + LINK_BYTES * LINKS
    + COMMAND_BYTES * COMMANDS;

// "reads at most 4,493 bytes of standard input", the listing program: one more, so that a longer input is refused.
pub const LISTING_INPUT: usize = LONGEST_FILE + 1;

// "Events of an instant: .. 12 bytes each"
pub const EVENT_BYTES: usize = 12;

// "When a call declines": document 01's numbers, in its order; specs/Numbers has its sentence for each.
pub const ACCEPTED: usize = 0;

pub const REFUSED_SHORT: usize = 1;

pub const REFUSED_OFFSETS: usize = 2;

pub const REFUSED_SIZES: usize = 3;

pub const REFUSED_HORIZON: usize = 4;

pub const REFUSED_INTEGRATOR: usize = 5;

pub const REFUSED_INPUT: usize = 6;

pub const REFUSED_NODE: usize = 7;

pub const REFUSED_LINK: usize = 8;

pub const REFUSED_COMMAND: usize = 9;

pub const REFUSED_UNSOUND: usize = 10;

pub const REFUSED_BUDGET: usize = 11;

pub const REFUSED_RUN_BUFFER: usize = 12;

pub const REFUSED_WRITE_BUFFER: usize = 13;

pub const REFUSED_INTEGRATOR_NUMBER: usize = 14;

// "1 finished ..; else 2 range ..; else 0 paused."
pub const PAUSED: usize = 0;

pub const FINISHED: usize = 1;

pub const RANGE: usize = 2;
