// The directory of a plan file: where its sections start and end, and the refusals 1 to 3.
#![tactic(auto)]

ghost use Rattle.std.specs.Prelude.{◌≡◌, ◌&&◌, ◌<◌, ◌≤◌, ◌^◌, ◌%◌, ◌/◌, eqb, length};
ghost use Rattle.plan.specs.Numbers.{sections, entry_sizes, header_bytes};
ghost use Rattle.plan.specs.Lists.{nat_at};
ghost use Rattle.plan.specs.Format.{offset_in, length_in, count_in, section_in};
ghost use Rattle.plan.specs.Tests.{count_kept, offsets_kept, sizes_kept};
ghost use Rattle.plan.specs.Refusals.{unless};
ghost use Rattle.plan.specs.declared.Refusal.TheVariants.{Offsets, Sizes};
ghost use Rattle.directory.specs.Directory.{directory_finding, Directory};
ghost use Rattle.directory.specs.Pointers.{further};

use entryrules::{count_kept, entry_size};
use plan::{HEADER_BYTES, Refusal, SECTIONS};
use words::read_u32;

// Where a section starts, by the header: its pair's first word.
#[tactic(auto, unfolding(plan::specs::Format::offset_in))]
pub fn offset_in(file: &[u8], section: usize) -> u64
    requires { (header_bytes ≤ length file.now) × (section < sections) }
    ensures answer { result ≡ offset_in file.now section }
    ensures range { result < 2 ^ 32 }
{
    read_u32(file, 4 + 8 * section)
}

// How many bytes a section has, by the header: its pair's second word.
#[tactic(auto, unfolding(plan::specs::Format::length_in))]
fn length_in(file: &[u8], section: usize) -> u64
    requires { (header_bytes ≤ length file.now) × (section < sections) }
    ensures answer { result ≡ length_in file.now section }
    ensures range { result < 2 ^ 32 }
{
    read_u32(file, 8 + 8 * section)
}

// "The first offset is 44, each next offset is the previous offset plus length, the last section ends the file." The sum of two words is below
// 2^33, so it cannot wrap in 64 bits.
fn check_offsets(file: &[u8]) -> Result<(), Refusal>
    requires { header_bytes ≤ length file.now }
    ensures { result ≡ unless (offsets_kept file.now) Offsets }
{
    let mut start = HEADER_BYTES as u64;
    for section in 0..SECTIONS {
        let offset = offset_in(file, section);
        if offset != start {
            return Err(Refusal::Offsets);
        }
        start = offset + length_in(file, section);
    }
    if file.len() as u64 == start {
        Ok(())
    } else {
        Err(Refusal::Offsets)
    }
}

// A section of so many bytes is a whole number of entries, and their count is inside its limits.
fn size_kept(section: usize, bytes: u64) -> bool
    requires { section < sections }
    ensures { result ≡ (eqb (bytes % nat_at entry_sizes section) 0 && count_kept section (bytes / nat_at entry_sizes section)) }
{
    let size = entry_size(section);
    bytes % size == 0 && count_kept(section, bytes / size)
}

// Every section is of the right size.
fn check_sizes(file: &[u8]) -> Result<(), Refusal>
    requires { header_bytes ≤ length file.now }
    ensures { result ≡ unless (sizes_kept file.now) Sizes }
{
    if (0..SECTIONS).all(|section| size_kept(section, length_in(file, section))) {
        Ok(())
    } else {
        Err(Refusal::Sizes)
    }
}

// The refusals 1, 2 and 3, in order. An answer is taken apart by `let .. else` before the next check, the form that document 01 names.
#[tactic(auto, unfolding(crate::specs::Directory::directory_finding, plan::specs::Refusals::or_else, plan::specs::Tests::long_enough))]
pub fn check_directory(file: &[u8]) -> Result<(), Refusal>
    ensures { result ≡ directory_finding file.now }
{
    if file.len() < HEADER_BYTES {
        return Err(Refusal::Short);
    }
    let found = check_offsets(file);
    let Ok(()) = found else {
        return found;
    };
    check_sizes(file)
}

// How many entries a section has.
#[tactic(auto, unfolding(plan::specs::Format::count_in))]
pub fn count_in(file: &[u8], section: usize) -> usize
    requires { Directory file.now × (section < sections) }
    ensures { result ≡ count_in file.now section }
{
    (length_in(file, section) / entry_size(section)) as usize
}

// A section, as a part of the file: what it holds, and where it lies, so that it is the caller's own.
pub fn section_in(file: &[u8], section: usize) -> &[u8]
    requires { Directory file.now × (section < sections) }
    ensures answer { result.now ≡ section_in file.now section }
    ensures place { result.ref_ptr ≡ further file.entry.ref_ptr (offset_in file.now section) }
{
    let offset = offset_in(file, section) as usize;
    let end = offset + length_in(file, section) as usize;
    &file[offset..end]
}
