// The section readers. Each is handed its section, as a part of the file, with the count of its entries, and hands back the columns of the entries; they
// begin all 0, so the unused entries are 0.
// Five loops of one shape: a function for a column in their place would be four, for words read as usize, u32, i64 and signed, and called fourteen times.
ghost use Rattle.std.specs.Prelude.{◌≡◌, ◌*◌, ◌≤◌, length};
ghost use Rattle.plan.specs.Numbers.{most_integrators, most_inputs, most_nodes, most_links, most_commands};
ghost use Rattle.plan.specs.Numbers.{integrator_bytes, input_bytes, node_bytes, link_bytes, command_bytes};
ghost use Rattle.planfile.specs.Columns.{words_of, signeds_of, unsigneds_of};

use plan::{
    COMMAND_BYTES, COMMANDS, Commands, INPUT_BYTES, INPUTS, INTEGRATOR_BYTES, INTEGRATORS, Inputs,
    Integrators, LINK_BYTES, LINKS, Links, NODE_BYTES, NODES, Nodes,
};
use words::{read_i32, read_u32};

// "8 bytes: signed start ..; quantum"
#[tactic(auto, using(crate::proofs::Laws::ColumnLoops::columns))]
pub fn read_integrators(part: &[u8], n: usize) -> Integrators
    requires { (n ≤ most_integrators) × (integrator_bytes * n ≤ length part.now) }
    ensures starts { result.starts ≡ signeds_of most_integrators integrator_bytes n part.now 0 }
    ensures quanta { result.quanta ≡ unsigneds_of most_integrators integrator_bytes n part.now 1 }
{
    let mut read = Integrators {
        starts: [0; INTEGRATORS],
        quanta: [0; INTEGRATORS],
    };
    for i in 0..n {
        read.starts[i] = read_i32(part, INTEGRATOR_BYTES * i);
        read.quanta[i] = read_u32(part, INTEGRATOR_BYTES * i + 4) as i64;
    }
    read
}

// "4 bytes: signed first value"
#[tactic(auto, using(crate::proofs::Laws::ColumnLoops::columns))]
pub fn read_inputs(part: &[u8], m: usize) -> Inputs
    requires { (m ≤ most_inputs) × (input_bytes * m ≤ length part.now) }
    ensures { result.firsts ≡ signeds_of most_inputs input_bytes m part.now 0 }
{
    let mut read = Inputs {
        firsts: [0; INPUTS],
    };
    for j in 0..m {
        read.firsts[j] = read_i32(part, INPUT_BYTES * j);
    }
    read
}

// "20 bytes: kind, A, B, signed lo, signed hi"
#[tactic(auto, using(crate::proofs::Laws::ColumnLoops::columns))]
pub fn read_nodes(part: &[u8], k: usize) -> Nodes
    requires { (k ≤ most_nodes) × (node_bytes * k ≤ length part.now) }
    ensures kinds { result.kinds ≡ words_of most_nodes node_bytes k part.now 0 }
    ensures a { result.a ≡ words_of most_nodes node_bytes k part.now 1 }
    ensures b { result.b ≡ words_of most_nodes node_bytes k part.now 2 }
    ensures lows { result.lows ≡ signeds_of most_nodes node_bytes k part.now 3 }
    ensures highs { result.highs ≡ signeds_of most_nodes node_bytes k part.now 4 }
{
    let mut read = Nodes {
        kinds: [0; NODES],
        a: [0; NODES],
        b: [0; NODES],
        lows: [0; NODES],
        highs: [0; NODES],
    };
    for j in 0..k {
        read.kinds[j] = read_u32(part, NODE_BYTES * j) as usize;
        read.a[j] = read_u32(part, NODE_BYTES * j + 4) as usize;
        read.b[j] = read_u32(part, NODE_BYTES * j + 8) as usize;
        read.lows[j] = read_i32(part, NODE_BYTES * j + 12);
        read.highs[j] = read_i32(part, NODE_BYTES * j + 16);
    }
    read
}

// "12 bytes: target integrator, source, signed coefficient"
#[tactic(auto, using(crate::proofs::Laws::ColumnLoops::columns))]
pub fn read_links(part: &[u8], links: usize) -> Links
    requires { (links ≤ most_links) × (link_bytes * links ≤ length part.now) }
    ensures targets { result.targets ≡ words_of most_links link_bytes links part.now 0 }
    ensures sources { result.sources ≡ words_of most_links link_bytes links part.now 1 }
    ensures coefficients { result.coefficients ≡ signeds_of most_links link_bytes links part.now 2 }
{
    let mut read = Links {
        targets: [0; LINKS],
        sources: [0; LINKS],
        coefficients: [0; LINKS],
    };
    for e in 0..links {
        read.targets[e] = read_u32(part, LINK_BYTES * e) as usize;
        read.sources[e] = read_u32(part, LINK_BYTES * e + 4) as usize;
        read.coefficients[e] = read_i32(part, LINK_BYTES * e + 8);
    }
    read
}

// "12 bytes: tick .., input number .., signed value"
#[tactic(auto, using(crate::proofs::Laws::ColumnLoops::columns))]
pub fn read_commands(part: &[u8], commands: usize) -> Commands
    requires { (commands ≤ most_commands) × (command_bytes * commands ≤ length part.now) }
    ensures ticks { result.ticks ≡ words_of most_commands command_bytes commands part.now 0 }
    ensures inputs { result.inputs ≡ words_of most_commands command_bytes commands part.now 1 }
    ensures values { result.values ≡ signeds_of most_commands command_bytes commands part.now 2 }
{
    let mut read = Commands {
        ticks: [0; COMMANDS],
        inputs: [0; COMMANDS],
        values: [0; COMMANDS],
    };
    for e in 0..commands {
        read.ticks[e] = read_u32(part, COMMAND_BYTES * e) as u32;
        read.inputs[e] = read_u32(part, COMMAND_BYTES * e + 4) as usize;
        read.values[e] = read_i32(part, COMMAND_BYTES * e + 8);
    }
    read
}
