//! What stands behind the last block of an image: a label, or room for one.
ghost use Rattle.std.specs.Prelude.{◌≡◌, ◌≢◌, ◌*◌, IfOk};
ghost use Rattle.paraid_imgrack.specs.declared.tail.Tail.TheVariants.{Unread};

use crate::label::{LABEL_SIZE, Label, names_array, was_label};
use paraid_base::BLOCK_SIZE;
use std::fs::File;
use std::io;
use std::os::unix::fs::FileExt;

/// What stands behind the blocks.
#[derive(Clone, Copy)]
pub(crate) enum Tail {
    /// Nothing, or zeros of a label's length: one can be written.
    Blank,
    /// A label that was cut short or damaged: one can be written over it.
    Torn,
    Label(Label),
    /// Other bytes of a label's length, which are left alone; or a file without a block.
    Other,
    /// A tail of another length, which is left alone too.
    Odd,
    /// It was not looked at yet, and is left alone until it is.
    Unread,
}

// Where the blocks of an image end, in bytes.
fn end(size: u32) -> u64
    ensures { result ≡ size * 512 }
{
    size as u64 * BLOCK_SIZE as u64
}

/// What stands behind the blocks of an image of this size. A file without a block has no place for
/// a label.
pub(crate) fn read_tail(file: &File, size: u32) -> io::Result<Tail>
    ensures { IfOk result (λ tail. tail ≢ Unread) }
{
    if size == 0 {
        return Ok(Tail::Other);
    }
    let length = file.metadata()?.len();
    if length == end(size) {
        return Ok(Tail::Blank);
    }
    if length != end(size) + LABEL_SIZE as u64 {
        return Ok(Tail::Odd);
    }
    let mut text = [0; LABEL_SIZE];
    file.read_exact_at(&mut text, end(size))?;
    Ok(tail_of(&text))
}

/// Whether a damaged label has the number of this array in its place.
pub(crate) fn is_torn_of(file: &File, size: u32, array: &[u8; 16]) -> io::Result<bool> {
    let mut text = [0; LABEL_SIZE];
    file.read_exact_at(&mut text, end(size))?;
    Ok(names_array(&text, array))
}

fn tail_of(text: &[u8; LABEL_SIZE]) -> Tail
    ensures { result ≢ Unread }
{
    match Label::read(text) {
        Some(label) => Tail::Label(label),
        None if was_label(text) => Tail::Torn,
        None if *text == [0; LABEL_SIZE] => Tail::Blank,
        None => Tail::Other,
    }
}

/// Writes a label, which the disk has once the image is synced.
pub(crate) fn write_label(file: &File, size: u32, label: &Label) -> io::Result<()> {
    file.write_all_at(&label.text(), end(size))
}

/// Keeps the room of a label behind the blocks of a new image.
pub(crate) fn keep_room(file: &File, size: u32) -> io::Result<()> {
    file.write_all_at(&[0; LABEL_SIZE], end(size))
}
