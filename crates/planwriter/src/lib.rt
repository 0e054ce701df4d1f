// The plan writer: the header, then each section into the part of the buffer behind what is written.
#![tactic(auto)]

ghost use Rattle.std.specs.Prelude.{◌≡◌, [], ◌∷◌, ◌*◌, ◌<◌, ◌≤◌, ◌^◌, length};
ghost use Rattle.words.specs.Putting.{written};
ghost use Rattle.plan.specs.Numbers.{sections, header_bytes};
ghost use Rattle.plan.specs.Lists.{joined};
ghost use Rattle.plan.specs.Rules.{PlanRules};
ghost use Rattle.plan.specs.Encoding.{length_from, offset_from, pair_entry};
ghost use Rattle.planwriter.specs.Header.{CountsWithinLimits};
ghost use Rattle.planwriter.specs.Plans.{plan_written, written_buffer};

use entryrules::entry_size;
use plan::{
    HEADER_BYTES, Plan, SECTION_COMMANDS, SECTION_INPUTS, SECTION_INTEGRATORS, SECTION_LINKS,
    SECTION_NODES, SECTIONS,
};
use sectionwriters::{write_commands, write_inputs, write_integrators, write_links, write_nodes};
use words::write_u32;

// A section's pair of offset and length in the header.
fn write_pair(buffer: &mut [u8], offset: usize, size: usize)
    requires { (8 ≤ length buffer.old) × (offset < 2 ^ 32) × (size < 2 ^ 32) }
    ensures { buffer.new ≡ written (offset ∷ size ∷ []) buffer.old }
{
    write_u32(buffer, 0, offset as u64);
    write_u32(buffer, 4, size as u64);
}

// The bytes of a section, by the counts of the five sections.
#[tactic(auto, using(crate::proofs::Laws::Header::length_limit))]
fn section_length(counts: &[usize; SECTIONS], section: usize) -> usize
    requires { (section < sections) × CountsWithinLimits counts.now }
    ensures { result ≡ length_from counts.now section }
{
    entry_size(section) as usize * counts[section]
}

// Where a section starts; of the number behind the last section, the length of the file.
fn section_offset(counts: &[usize; SECTIONS], section: usize) -> usize
    requires { (section ≤ sections) × CountsWithinLimits counts.now }
    ensures { result ≡ offset_from counts.now section }
{
    let mut offset = HEADER_BYTES;
    for i in 0..section {
        offset += section_length(counts, i);
    }
    offset
}

// The header's pairs, one for each section.
fn write_pairs(buffer: &mut [u8], counts: &[usize; SECTIONS])
    requires { (8 * sections ≤ length buffer.old) × CountsWithinLimits counts.now }
    ensures { buffer.new ≡ written (joined (pair_entry counts.now) sections) buffer.old }
{
    for section in 0..SECTIONS {
        let offset = section_offset(counts, section);
        let size = section_length(counts, section);
        write_pair(&mut buffer[8 * section..], offset, size);
    }
}

// The header: the horizon, then the pairs.
fn write_header(buffer: &mut [u8], horizon: u32, counts: &[usize; SECTIONS])
    requires { (header_bytes ≤ length buffer.old) × CountsWithinLimits counts.now }
    ensures { buffer.new ≡ written (horizon ∷ joined (pair_entry counts.now) sections) buffer.old }
{
    write_u32(buffer, 0, u64::from(horizon));
    write_pairs(&mut buffer[4..], counts);
}

// Writes the file of a plan that keeps the rules, and answers its length; the bytes behind the file keep their value. A buffer that is shorter than the
// file keeps all its bytes, and there is no answer.
pub fn write_plan(plan: &Plan, buffer: &mut [u8]) -> Option<usize>
    requires { PlanRules plan.now }
    ensures answer { result ≡ plan_written plan.now (length buffer.old) }
    ensures buffer { buffer.new ≡ written_buffer plan.now buffer.old }
{
    let counts = plan.counts;
    let sizes = counts.in_order();
    let length = section_offset(&sizes, SECTIONS);
    if buffer.len() < length {
        return None;
    }
    write_header(buffer, plan.horizon, &sizes);
    let integrators = section_offset(&sizes, SECTION_INTEGRATORS);
    write_integrators(&mut buffer[integrators..], &plan.integrators, counts.n);
    let inputs = section_offset(&sizes, SECTION_INPUTS);
    write_inputs(&mut buffer[inputs..], &plan.inputs, counts.m);
    let nodes = section_offset(&sizes, SECTION_NODES);
    write_nodes(&mut buffer[nodes..], &plan.nodes, counts.k);
    let links = section_offset(&sizes, SECTION_LINKS);
    write_links(&mut buffer[links..], &plan.links, counts.links);
    let commands = section_offset(&sizes, SECTION_COMMANDS);
    write_commands(&mut buffer[commands..], &plan.commands, counts.commands);
    Some(length)
}
