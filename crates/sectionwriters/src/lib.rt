// The section writers: each writes the entries of its section, one behind the other, at the start of the part of the buffer that it is lent. They ask
// for room and that each number fits its word of 32 bits. Five loops of one shape: one over a closure would say in its contract what each entry's words
// are, and be no plainer.
#![tactic(auto)]

ghost use Rattle.std.specs.Prelude.{◌≡◌, [], ◌∷◌, ◌*◌, ◌<◌, ◌≤◌, ◌^◌, length};
ghost use Rattle.std.specs.Int.Signed.{mag};
ghost use Rattle.words.specs.Word.{word_of};
ghost use Rattle.words.specs.Putting.{written};
ghost use Rattle.plan.specs.Numbers.{most_integrators, most_inputs, most_nodes, most_links, most_commands};
ghost use Rattle.plan.specs.Numbers.{integrator_bytes, input_bytes, node_bytes, link_bytes, command_bytes};
ghost use Rattle.plan.specs.Lists.{joined};
ghost use Rattle.plan.specs.Encoding.{integrator_entry, input_entry, node_entry, triple_entry};
ghost use Rattle.sectionwriters.specs.Entries.{Unsigned32, Signed32};

use plan::{
    COMMAND_BYTES, Commands, INPUT_BYTES, INTEGRATOR_BYTES, Inputs, Integrators, LINK_BYTES, Links,
    NODE_BYTES, Nodes,
};
use words::{write_i32, write_triple, write_u32};

// The words of an integrator's entry at the start of a part of the buffer.
fn write_integrator(buffer: &mut [u8], start: i64, quantum: i64)
    requires { (integrator_bytes ≤ length buffer.old) × (mag start < 2 ^ 31) × (mag quantum < 2 ^ 31) }
    ensures { buffer.new ≡ written (word_of start ∷ word_of quantum ∷ []) buffer.old }
{
    write_i32(buffer, 0, start);
    write_i32(buffer, 4, quantum);
}

// The word of an input's entry.
fn write_input(buffer: &mut [u8], first: i64)
    requires { (input_bytes ≤ length buffer.old) × (mag first < 2 ^ 31) }
    ensures { buffer.new ≡ written (word_of first ∷ []) buffer.old }
{
    write_i32(buffer, 0, first);
}

// The words of a node's entry.
// An entry's numbers one by one, as the plan's columns hold them.
fn write_node(buffer: &mut [u8], kind: usize, a: usize, b: usize, lo: i64, hi: i64)
    requires { (node_bytes ≤ length buffer.old) × (kind < 2 ^ 32) × (a < 2 ^ 32) × (b < 2 ^ 32) × (mag lo < 2 ^ 31) × (mag hi < 2 ^ 31) }
    ensures { buffer.new ≡ written (kind ∷ a ∷ b ∷ word_of lo ∷ word_of hi ∷ []) buffer.old }
{
    write_u32(buffer, 0, kind as u64);
    write_u32(buffer, 4, a as u64);
    write_u32(buffer, 8, b as u64);
    write_i32(buffer, 12, lo);
    write_i32(buffer, 16, hi);
}

// The section of the integrators.
pub fn write_integrators(buffer: &mut [u8], integrators: &Integrators, n: usize)
    requires counted { (n ≤ most_integrators) × (integrator_bytes * n ≤ length buffer.old) }
    requires fitting { Signed32 n integrators.now.starts × Signed32 n integrators.now.quanta }
    ensures { buffer.new ≡ written (joined (integrator_entry integrators.now.starts integrators.now.quanta) n) buffer.old }
{
    for i in 0..n {
        write_integrator(
            &mut buffer[INTEGRATOR_BYTES * i..],
            integrators.starts[i],
            integrators.quanta[i],
        );
    }
}

// The section of the inputs.
pub fn write_inputs(buffer: &mut [u8], inputs: &Inputs, m: usize)
    requires counted { (m ≤ most_inputs) × (input_bytes * m ≤ length buffer.old) }
    requires fitting { Signed32 m inputs.now.firsts }
    ensures { buffer.new ≡ written (joined (input_entry inputs.now.firsts) m) buffer.old }
{
    for j in 0..m {
        write_input(&mut buffer[INPUT_BYTES * j..], inputs.firsts[j]);
    }
}

// The section of the nodes.
pub fn write_nodes(buffer: &mut [u8], nodes: &Nodes, k: usize)
    requires counted { (k ≤ most_nodes) × (node_bytes * k ≤ length buffer.old) }
    requires fitting { Unsigned32 k nodes.now.kinds × Unsigned32 k nodes.now.a × Unsigned32 k nodes.now.b
        × Signed32 k nodes.now.lows × Signed32 k nodes.now.highs }
    ensures { buffer.new ≡ written (joined (node_entry nodes.now.kinds nodes.now.a nodes.now.b
        nodes.now.lows nodes.now.highs) k) buffer.old }
{
    for j in 0..k {
        write_node(
            &mut buffer[NODE_BYTES * j..],
            nodes.kinds[j],
            nodes.a[j],
            nodes.b[j],
            nodes.lows[j],
            nodes.highs[j],
        );
    }
}

// The section of the links.
pub fn write_links(buffer: &mut [u8], links: &Links, count: usize)
    requires counted { (count ≤ most_links) × (link_bytes * count ≤ length buffer.old) }
    requires fitting { Unsigned32 count links.now.targets × Unsigned32 count links.now.sources × Signed32 count links.now.coefficients }
    ensures { buffer.new ≡ written (joined (triple_entry links.now.targets links.now.sources links.now.coefficients) count)
        buffer.old }
{
    for e in 0..count {
        write_triple(
            &mut buffer[LINK_BYTES * e..],
            links.targets[e],
            links.sources[e],
            links.coefficients[e],
        );
    }
}

// The section of the commands.
pub fn write_commands(buffer: &mut [u8], commands: &Commands, count: usize)
    requires counted { (count ≤ most_commands) × (command_bytes * count ≤ length buffer.old) }
    requires fitting { Unsigned32 count commands.now.ticks × Unsigned32 count commands.now.inputs × Signed32 count commands.now.values }
    ensures { buffer.new ≡ written (joined (triple_entry commands.now.ticks commands.now.inputs commands.now.values) count)
        buffer.old }
{
    for e in 0..count {
        write_triple(
            &mut buffer[COMMAND_BYTES * e..],
            commands.ticks[e] as usize,
            commands.inputs[e],
            commands.values[e],
        );
    }
}
