//! What stands under a name: a file that can be read and written, none, or one that is shut.

use std::fs::{self, File, Files, OpenOptions, TryLockError};
use std::io;

/// What stands under a name of the folder.
#[derive(Drop)]
pub(crate) enum Found {
    /// A file, open for reading and writing.
    Open(File),
    /// Nothing.
    Nothing,
    /// What is no file, as a folder, a pipe or a device; or what the device cannot read. And why.
    Lost(io::Error),
    /// It is there, and this process cannot open it, and why.
    Shut(io::Error),
}

/// The code of Linux for a folder in the place of a file: EISDIR.
const IS_A_FOLDER: i32 = 21;

/// Looks for a file. Opening a pipe would wait for its other end, so what is no file is not opened.
pub(crate) fn find<F: Files<File = File>>(files: &F, name: &str) -> Found {
    match fs::metadata(files, name) {
        Ok(found) if found.is_file() => open(files, name),
        Ok(found) if found.is_dir() => Found::Lost(io::Error::from_raw_os_error(IS_A_FOLDER)),
        Ok(_) => Found::Lost(io::Error::new(io::ErrorKind::InvalidInput, "is no file")),
        Err(error) => find_unseen(files, name, error),
    }
}

fn open<F: Files<File = File>>(files: &F, name: &str) -> Found {
    match OpenOptions::new().read(true).write(true).open(files, name) {
        Ok(file) => Found::Open(file),
        Err(error) => by_error(error),
    }
}

// What stands under a name of which this is told instead: nothing, or a link that leads nowhere,
// as to a drive that is not mounted.
fn find_unseen<F: Files<File = File>>(files: &F, name: &str, error: io::Error) -> Found {
    match fs::symlink_metadata(files, name) {
        Err(other) if other.kind() == io::ErrorKind::NotFound => Found::Nothing,
        _ => by_error(error),
    }
}

fn by_error(error: io::Error) -> Found {
    if is_of_device(&error) {
        Found::Lost(error)
    } else {
        Found::Shut(error)
    }
}

/// The codes of Linux for an error of the device: EIO, ENXIO, ENODEV, EBADMSG, EUCLEAN, EREMOTEIO
/// and ENOMEDIUM.
const OF_DEVICE: [Option<i32>; 7] = [
    Some(5),
    Some(6),
    Some(19),
    Some(74),
    Some(117),
    Some(121),
    Some(123),
];

// Whether the device cannot read what is there. All other errors of an opening are of rights, of
// the number of open files, or of the way to it.
fn is_of_device(error: &io::Error) -> bool {
    OF_DEVICE.contains(&error.raw_os_error())
}

/// Whether so many files more can be open at once.
pub(crate) fn has_descriptors<F: Files<File = File>>(files: &F, count: u8) -> bool {
    if count == 0 {
        return true;
    }
    match fs::open(files, ".") {
        Ok(_held) => has_descriptors(files, count - 1),
        Err(_) => false,
    }
}

/// Whether another open file has the lock. Where a file system has no locks, none has.
pub(crate) fn is_locked(file: &File) -> bool {
    matches!(file.try_lock(), Err(TryLockError::WouldBlock))
}

/// Whether there was no room or no right for a new file. The old ones can still be written.
pub(crate) fn is_want_of_room(error: &io::Error) -> bool {
    matches!(
        error.kind(),
        io::ErrorKind::StorageFull
            | io::ErrorKind::QuotaExceeded
            | io::ErrorKind::FileTooLarge
            | io::ErrorKind::PermissionDenied
            | io::ErrorKind::ReadOnlyFilesystem
    )
}
