//! What stands in the place of a new image, and how that is made.
ghost use Rattle.std.specs.Prelude.{◌+◌, ◌<◌, ◌^◌};

use crate::found::{Found, find, is_locked};
use crate::identity::Identity;
use crate::image::{offset, whole_blocks};
use crate::label::Label;
use crate::tail::{Tail, is_torn_of, keep_room, read_tail};
use paraid_base::BLOCK_SIZE;
use std::fs::{self, File, Files, OpenOptions};
use std::io;
use std::os::unix::fs::FileExt;

/// What a new image of a known array is not to be written over.
pub(crate) enum Obstacle {
    /// An image that has the label of another array.
    Foreign,
    /// A file that holds data and has no label of the array, not even a damaged one.
    Data,
}

/// What stands in the place of a new image and is not of its array, as far as its label tells. A
/// file that cannot be opened is no obstacle; one whose end cannot be read is none to write over
/// either.
pub(crate) fn obstacle_at<F: Files<File = File>>(
    files: &F,
    name: &str,
    identity: &Option<Identity>,
) -> io::Result<Option<Obstacle>> {
    let Some(identity) = identity else {
        return Ok(None);
    };
    let Found::Open(file) = find(files, name) else {
        return Ok(None);
    };
    let size = whole_blocks(file.metadata()?.len());
    match read_tail(&file, size)? {
        Tail::Label(label) => Ok(foreign_in(&label, identity)),
        Tail::Torn => torn_in(&file, size, identity),
        _ => data_in(&file),
    }
}

fn foreign_in(label: &Label, identity: &Identity) -> Option<Obstacle> {
    if label.array == identity.array {
        None
    } else {
        Some(Obstacle::Foreign)
    }
}

// A damaged label is the array's where its number stands in it. Else the file has none.
fn torn_in(file: &File, size: u32, identity: &Identity) -> io::Result<Option<Obstacle>> {
    if is_torn_of(file, size, &identity.array)? {
        Ok(None)
    } else {
        data_in(file)
    }
}

fn data_in(file: &File) -> io::Result<Option<Obstacle>> {
    if holds_data(file)? {
        Ok(Some(Obstacle::Data))
    } else {
        Ok(None)
    }
}

/// A file of so many blocks of zeros, which the disk has when it returns. Where there is no room
/// for it, it is left empty, and the room is given back. Through a link that leads nowhere, as to a
/// drive that is not mounted, no file is made.
pub(crate) fn create_image<F: Files<File = File>>(
    files: &F,
    name: &str,
    size: u32,
) -> io::Result<File> {
    let is_there = fs::symlink_metadata(files, name).is_ok();
    let file = OpenOptions::new()
        .read(true)
        .write(true)
        .create(!is_there)
        .open(files, name)?;
    if is_locked(&file) {
        return Err(io::Error::from(io::ErrorKind::WouldBlock));
    }
    file.set_len(0)?;
    if let Err(error) = fill_image(&file, size) {
        let _ = file.set_len(0);
        return Err(error);
    }
    Ok(file)
}

/// How many blocks of zeros are written at once.
const PIECE: u32 = 128;

static ZEROS: [u8; PIECE as usize * BLOCK_SIZE] = [0; PIECE as usize * BLOCK_SIZE];

// Writes each block, so that no later write of one needs room that a full file system does not
// have.
fn fill_image(file: &File, size: u32) -> io::Result<()> {
    for piece in 0..size / PIECE {
        file.write_all_at(&ZEROS, offset(piece * PIECE))?;
    }
    let rest = size % PIECE;
    file.write_all_at(&ZEROS[..rest as usize * BLOCK_SIZE], offset(size - rest))?;
    keep_room(file, size)?;
    file.sync_all()
}

/// How many bytes at each end of a file are looked at: there file systems, tables of partitions and
/// other arrays have their marks.
const END: u64 = 1 << 20;

/// How many bytes are read at once.
const STEP: u64 = 4096;

/// Whether a file has another byte than zero in its first or its last MiB.
pub(crate) fn holds_data(file: &File) -> io::Result<bool> {
    let length = file.metadata()?.len();
    let end = length.min(END);
    Ok(has_bytes(file, 0, end)? || has_bytes(file, length - end, end)?)
}

// Whether one of so many bytes from a place on is not zero.
fn has_bytes(file: &File, from: u64, count: u64) -> io::Result<bool>
    requires { from + count < 2 ^ 64 }
{
    let mut bytes = [0; STEP as usize];
    for step in 0..count / STEP {
        file.read_exact_at(&mut bytes, from + step * STEP)?;
        if &bytes[..] != &ZEROS[..STEP as usize] {
            return Ok(true);
        }
    }
    let rest = count % STEP;
    let bytes = &mut bytes[..rest as usize];
    file.read_exact_at(bytes, from + (count - rest))?;
    Ok(&*bytes != &ZEROS[..rest as usize])
}
