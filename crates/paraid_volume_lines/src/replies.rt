//! The line of each answer, with its newline.
ghost use Rattle.std.specs.Prelude.{◌≡◌, ◌+◌, ◌≤◌, ◌++◌, length, codes, decimal, Result, Ok, Err};
ghost use Rattle.paraid_trace.specs.BlockTexts.{block_text};
ghost use Rattle.paraid_volume_lines.specs.NameWords.{word_of};
ghost use Rattle.paraid_volume_lines.specs.Texts.{begun_text, created_text, deleted_text, fault_text, flushed_text, read_text, written_text};

use paraid_base::{Block, BlockNo};
use paraid_trace::{Brief, Text, reply};
use paraid_volume::{Name, VolFault};

pub(crate) fn push_name(name: &Name, into: &mut Text)
    requires { length into.old ≤ 1100 }
    ensures value { into.new ≡ into.old ++ word_of name.now }
    ensures length { length into.new ≤ length into.old + 16 }
{
    into.push(name.as_slice());
}

/// A line of one word.
pub fn tell_word(word: &[u8], into: &mut Text)
    requires { length word.now ≤ 20 }
    ensures { into.new ≡ word.now ++ codes "\n" }
{
    into.clear();
    into.push(word);
    into.push(b"\n");
}

/// Why a line was refused.
#[tactic(auto, unfolding(paraid_trace::specs::Replies::reply_of, paraid_trace::specs::Replies::answer_text))]
pub fn tell_fault(fault: &VolFault, into: &mut Text)
    ensures { into.new ≡ fault_text fault.now ++ codes "\n" }
{
    match fault {
        VolFault::Halt(halt) => reply(&Brief::Halted(*halt), into),
        VolFault::Small { .. } => tell_word(b"small", into),
        VolFault::NotVolumes => tell_word(b"novolumes", into),
        VolFault::Already => tell_word(b"already", into),
        VolFault::NoVolume { .. } => tell_word(b"novolume", into),
        VolFault::NoBlock { .. } => tell_word(b"noblock", into),
        VolFault::Exists { .. } => tell_word(b"exists", into),
        VolFault::NoExtents => tell_word(b"noextents", into),
        VolFault::Names => tell_word(b"names", into),
        VolFault::Space { free } => tell_space(*free, into),
    }
}

fn tell_space(free: u32, into: &mut Text)
    ensures { into.new ≡ codes "space " ++ decimal free ++ codes "\n" }
{
    into.clear();
    into.push(b"space ");
    into.push_number(u64::from(free));
    into.push(b"\n");
}

/// An array that holds an empty table now.
pub fn tell_begun(extents: u32, size: u32, into: &mut Text)
    ensures { into.new ≡ begun_text extents size ++ codes "\n" }
{
    into.clear();
    into.push(b"volumes ");
    into.push_number(u64::from(extents));
    into.push(b" of ");
    into.push_number(u64::from(size));
    into.push(b"\n");
}

/// How a volume was made.
pub fn tell_created(name: &Name, made: &Result<u8, VolFault>, into: &mut Text)
    ensures { into.new ≡ created_text (word_of name.now) made.now ++ codes "\n" }
{
    match made {
        Ok(id) => tell_made(name, *id, into),
        Err(fault) => tell_fault(fault, into),
    }
}

fn tell_made(name: &Name, id: u8, into: &mut Text)
    ensures { into.new ≡ created_text (word_of name.now) (Ok id) ++ codes "\n" }
{
    into.clear();
    into.push(b"created ");
    push_name(name, into);
    into.push(b" ");
    into.push_number(u64::from(id));
    into.push(b"\n");
}

/// Whether there was a volume to remove.
pub fn tell_deleted(name: &Name, there: bool, into: &mut Text)
    ensures { into.new ≡ deleted_text (word_of name.now) there ++ codes "\n" }
{
    if !there {
        tell_word(b"novolume", into);
        return;
    }
    into.clear();
    into.push(b"deleted ");
    push_name(name, into);
    into.push(b"\n");
}

/// A block of a volume.
pub fn tell_read(
    name: &Name,
    block: BlockNo,
    read: &Result<(), VolFault>,
    bytes: &Block,
    into: &mut Text,
)
    ensures { into.new ≡ read_text (word_of name.now) block read.now bytes.now ++ codes "\n" }
{
    match read {
        Ok(()) => tell_bytes(name, block, bytes, into),
        Err(fault) => tell_fault(fault, into),
    }
}

fn tell_bytes(name: &Name, block: BlockNo, bytes: &Block, into: &mut Text)
    ensures { into.new ≡ word_of name.now
        ++ codes " " ++ decimal block ++ codes "=" ++ block_text bytes.now ++ codes "\n" }
{
    into.clear();
    push_name(name, into);
    into.push(b" ");
    into.push_number(u64::from(block));
    into.push(b"=");
    into.push_block(bytes);
    into.push(b"\n");
}

/// Whether a block was written.
pub fn tell_written(written: &Result<(), VolFault>, into: &mut Text)
    ensures { into.new ≡ written_text written.now ++ codes "\n" }
{
    match written {
        Ok(()) => tell_word(b"wrote", into),
        Err(fault) => tell_fault(fault, into),
    }
}

/// Whether all was kept.
pub fn tell_flushed(flushed: &Result<u64, VolFault>, into: &mut Text)
    ensures { into.new ≡ flushed_text flushed.now ++ codes "\n" }
{
    match flushed {
        Ok(_) => tell_word(b"flushed", into),
        Err(fault) => tell_fault(fault, into),
    }
}
