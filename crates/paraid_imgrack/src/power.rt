//! A sidecar is replaced whole, so that a stop leaves the old text or the new one.
ghost use Rattle.std.specs.Prelude.{◌≡◌, ◌↔◌};
ghost use Rattle.paraid_imgrack.specs.Sidecar.{power_word, trim_end};

use crate::found::{Found, find, is_want_of_room};
use paraid_base::{DiskNo, NoMemory};
use paraid_rack::Power;
use std::alloc::Global;
use std::fs::{self, File, Files, OpenOptions};
use std::io::{self, Write};
use std::os::unix::fs::FileExt;

/// A sidecar of more bytes is unknown.
const LONGEST: usize = 64;

/// The names of a disk's files in the current folder.
#[derive(Drop)]
pub(crate) struct Names {
    /// The image, which holds the blocks one after another.
    pub(crate) image: String,
    /// The sidecar, which holds the power.
    sidecar: String,
    /// A sidecar that is being written.
    next: String,
}

impl Names {
    pub(crate) fn new(alloc: Global, disk: DiskNo) -> Result<Names, NoMemory> {
        let Ok(image) = format!(in alloc; "disk-{disk}.img") else {
            return Err(NoMemory);
        };
        let Ok(sidecar) = format!(in alloc; "disk-{disk}.power") else {
            return Err(NoMemory);
        };
        let Ok(next) = format!(in alloc; "disk-{disk}.power.next") else {
            return Err(NoMemory);
        };
        Ok(Names {
            image,
            sidecar,
            next,
        })
    }

    /// The power that the sidecar tells, or why it cannot be opened. A missing one tells
    /// `Spinning`, and one that is unknown or cannot be read tells `Absent`; why, where its device
    /// has failed.
    pub(crate) fn load<F: Files<File = File>>(
        &self,
        files: &F,
    ) -> io::Result<(Power, Option<io::Error>)> {
        match find(files, self.sidecar.as_str()) {
            Found::Open(file) => match power_in(&file) {
                Ok(power) => Ok((power, None)),
                Err(error) => Ok((Power::Absent, Some(error))),
            },
            Found::Nothing => Ok((Power::Spinning, None)),
            Found::Lost(error) => Ok((Power::Absent, Some(error))),
            Found::Shut(error) => Err(error),
        }
    }

    /// Whether there is a sidecar, of whatever text.
    pub(crate) fn has_sidecar<F: Files<File = File>>(&self, files: &F) -> bool {
        fs::symlink_metadata(files, self.sidecar.as_str()).is_ok()
    }

    /// Makes the sidecar tell this power. When it returns, the disk has it.
    ///
    /// A full file system may have no room for a new sidecar. Then the text is written over the old
    /// one, in one block of the disk. If a stop comes in the middle all the same, the text may be
    /// unknown, which tells that there is no disk.
    pub(crate) fn store<F: Files<File = File>>(&self, files: &F, power: Power) -> io::Result<()> {
        match self.replace(files, power) {
            Err(error) if is_want_of_room(&error) => {
                overwrite(files, self.sidecar.as_str(), wide_text(power))
            }
            done => done,
        }
    }

    // Replaces the sidecar by one of this power.
    fn replace<F: Files<File = File>>(&self, files: &F, power: Power) -> io::Result<()> {
        write_new(files, self.next.as_str(), text(power))?;
        fs::rename(files, self.next.as_str(), self.sidecar.as_str())?;
        sync_folder(files)
    }

    /// Makes the sidecar tell that the disk has failed, as far as that can be done.
    pub(crate) fn store_failed<F: Files<File = File>>(&self, files: &F) {
        if self.replace(files, Power::Absent).is_err() {
            let _ = overwrite(files, self.sidecar.as_str(), wide_text(Power::Absent));
        }
    }
}

// Makes a file of this text. When it returns, the disk has it.
fn write_new<F: Files<File = File>>(files: &F, name: &str, text: &str) -> io::Result<()> {
    let mut file = fs::create(files, name)?;
    file.write_all(text.as_bytes())?;
    file.sync_all()
}

// The text of a sidecar, which is the power's word on a line.
fn text(power: Power) -> &'static str
    ensures { trim_end result.now ≡ power_word power }
{
    match power {
        Power::Spinning => "spinning\n",
        Power::Parked => "parked\n",
        Power::Absent => "failed\n",
    }
}

// The text as it is written over another one, of which nothing is to be left.
fn wide_text(power: Power) -> &'static str
    ensures { trim_end result.now ≡ power_word power }
{
    match power {
        Power::Spinning => "spinning \n",
        Power::Parked => "parked   \n",
        Power::Absent => "failed   \n",
    }
}

// The power that a text tells, which is `Absent` where no word is known. White space at the end
// does not count.
fn power_of(text: &[u8]) -> Power
    ensures spinning { (result ≡ Power.Spinning) ↔ (trim_end text.now ≡ power_word Power.Spinning) }
    ensures parked { (result ≡ Power.Parked) ↔ (trim_end text.now ≡ power_word Power.Parked) }
{
    let said = text.trim_ascii_end();
    if said == b"spinning".as_slice() {
        Power::Spinning
    } else if said == b"parked".as_slice() {
        Power::Parked
    } else {
        Power::Absent
    }
}

// The power that an open sidecar tells. One that was written over is on the disk from then on.
fn power_in(file: &File) -> io::Result<Power> {
    file.sync_data()?;
    let length = file.metadata()?.len();
    if length > LONGEST as u64 {
        return Ok(Power::Absent);
    }
    let mut bytes = [0; LONGEST];
    let text = &mut bytes[..length as usize];
    file.read_exact_at(text, 0)?;
    Ok(power_of(text))
}

fn overwrite<F: Files<File = File>>(files: &F, name: &str, text: &str) -> io::Result<()> {
    let file = OpenOptions::new()
        .write(true)
        .create(true)
        .open(files, name)?;
    file.write_all_at(text.as_bytes(), 0)?;
    file.sync_all()?;
    sync_folder(files)
}

/// A sidecar that a process replaced which was then killed stays so, unless the folder's device
/// fails.
pub(crate) fn keep_sidecars<F: Files<File = File>>(files: &F) {
    let _ = sync_folder(files);
}

// When it returns, the names of the folder are on the disk.
fn sync_folder<F: Files<File = File>>(files: &F) -> io::Result<()> {
    fs::open(files, ".")?.sync_all()
}
