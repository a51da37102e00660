//! One disk of the rack: a call on it is done, or it leaves the disk absent and counted as failed.
ghost use Rattle.std.specs.Prelude.{◌≡◌, ◌≢◌, ℕ, ◌*◌, ◌/◌, ◌<◌, min, true, ◌⊎◌, false, length, slice_index, None, Some, IfOk, IfSome, IsSome, OnErr, OnOk};
ghost use Rattle.paraid_base.specs.Told.{HasRisen};
ghost use Rattle.paraid_imgrack.specs.declared.tail.Tail.TheVariants.{Blank, Odd, Other, Unread};
ghost use Rattle.paraid_imgrack.specs.Labels.{CanHaveLabel, FitsTailLate, KeepsOthers, known_array, label_of};
ghost use Rattle.paraid_rack.specs.declared.call.Power.TheVariants.{Spinning, Parked, Absent};

use crate::found::{Found, find, is_locked, is_want_of_room};
use crate::fresh::{Obstacle, create_image, holds_data, obstacle_at};
use crate::identity::{Identity, Misfit};
use crate::label::Label;
use crate::power::Names;
use crate::tail::{Tail, read_tail, write_label};
use paraid_base::{BATCH_META, BLOCK_SIZE, Block, DiskNo, Failed, META, NoMemory, Place};
use paraid_rack::Power;
use std::alloc::Global;
use std::fs::{File, Files, OpenOptions};
use std::io;
use std::os::unix::fs::FileExt;

/// Why a disk that is there can be neither served nor called lost.
#[derive(Clone, Copy)]
pub enum Hindrance {
    /// Its image is there and cannot be opened: this process has no right to it or no descriptor
    /// left, or it is a link that leads nowhere, as to a drive that is not mounted. The system
    /// tells why.
    ImageShut(io::Error),
    /// So it is with its sidecar.
    SidecarShut(io::Error),
    /// Another process works with its image, or it is the image of a second disk too.
    Busy,
}

/// What would be lost by a new array.
#[derive(Clone, Copy, PartialEq, Eq)]
pub enum Claim {
    /// An image that has the label or the log of an array.
    Image,
    /// A file that is no image of an array and does not hold zeros alone.
    Data,
    /// An image that cannot be read.
    Unread,
    /// A sidecar whose image is not there.
    Sidecar,
}

/// The disk of a slot, or that there is none.
#[derive(Drop)]
pub(crate) struct Image {
    names: Names,
    /// The open image, where the disk is present.
    file: Option<File>,
    pub(crate) power: Power,
    /// The number of blocks.
    pub(crate) size: u32,
    pub(crate) unsynced: bool,
    faults: u64,
    /// What hinders all work on the disk, where its files were looked at.
    pub(crate) hindrance: Option<Hindrance>,
    tail: Tail,
    /// Why the image does not belong into its slot, or the disk was not spun up or attached.
    pub(crate) misfit: Option<Misfit>,
    /// The error of the first call that failed, since the disk was last to be attached.
    pub(crate) cause: Option<io::Error>,
    /// The disk was attached since the load.
    pub(crate) attached: bool,
    pub ghost empty: { power ≡ Absent → size ≡ 0 },
    pub ghost still: { power ≡ Parked → unsynced ≡ false },
}

impl Image {
    ghost use Rattle.std.specs.Prelude.{is_ok};
    ghost use Rattle.paraid_imgrack.specs.Calls.{KeepsCause, TellsCause, has_file};
    ghost use Rattle.paraid_imgrack.specs.Images.{image_hindrance, image_label, image_misfit, image_slot, image_tail, IsLoaded, IsFailedSlot, Becomes};

    /// The disk as its files tell it.
    ///
    /// What an earlier process wrote may not have reached the disk, so a spinning one is unsynced.
    pub(crate) fn load<F: Files<File = File>>(
        files: &F,
        alloc: Global,
        disk: DiskNo,
    ) -> Result<Image, NoMemory>
        ensures loaded { IfOk result (λ image. IsLoaded (image_slot image)) }
        ensures fresh { IfOk result (λ image. image_misfit image ≡ None) }
        ensures clean { IfOk result (λ image. image.power ≢ Absent → image.cause ≡ None) }
    {
        let names = Names::new(alloc, disk)?;
        let (power, cause) = match names.load(files) {
            Ok(found) => found,
            Err(error) => {
                let hindrance = Hindrance::SidecarShut(error);
                return Ok(Image::absent(names, Some(hindrance), None));
            }
        };
        if power == Power::Absent {
            return Ok(Image::absent(names, None, cause));
        }
        match open_kept(files, &names, power) {
            Opened::Image(file, size) => Ok(Image {
                names,
                file: Some(file),
                power,
                size,
                unsynced: power == Power::Spinning,
                faults: 0,
                hindrance: None,
                tail: Tail::Unread,
                misfit: None,
                cause: None,
                attached: false,
            }),
            Opened::Lost(cause) => Ok(Image::absent(names, None, cause)),
            Opened::Hindered(hindrance) => Ok(Image::absent(names, Some(hindrance), None)),
        }
    }

    // No disk, and what hinders work on it, or why it is lost where its device has failed.
    fn absent(names: Names, hindrance: Option<Hindrance>, cause: Option<io::Error>) -> Image
        ensures loaded { IsLoaded (image_slot result) }
        ensures fresh { image_misfit result ≡ None }
        ensures absent { result.power ≡ Absent }
    {
        Image {
            names,
            file: None,
            power: Power::Absent,
            size: 0,
            unsynced: false,
            faults: 0,
            hindrance,
            tail: Tail::Unread,
            misfit: None,
            cause,
            attached: false,
        }
    }

    /// Reads the label of an image that spins. A parked one is left alone. Where it cannot be read,
    /// the next call on the disk fails: the image may be a wrong one.
    pub(crate) fn read_label(&mut self) -> Option<Label>
        ensures slot { image_slot self.new ≡ image_slot self.old }
        ensures hindrance { image_hindrance self.new ≡ image_hindrance self.old }
        ensures misfit { image_misfit self.new ≡ image_misfit self.old }
        ensures first { IsSome self.old.cause → self.new.cause ≡ self.old.cause }
        ensures kept { result ≡ image_label self.new }
        ensures read { self.new.power ≡ Spinning
            → ((self.new.tail ≢ Unread) × (has_file self.new ≡ true))
            ⊎ (IsSome self.new.cause × (has_file self.new ≡ false)) }
    {
        if self.power != Power::Spinning {
            return None;
        }
        match tail_of(&self.file, self.size) {
            Ok(tail) => self.tail = tail,
            Err(error) => {
                self.cause = self.cause.or(Some(error));
                self.file = None;
            }
        }
        label_in(&self.tail)
    }

    /// What stands behind the blocks of an image that spins, as it was read. Of others nothing was
    /// read.
    pub(crate) fn tail(&self) -> Tail
        ensures { result ≡ image_tail self.now }
    {
        match self.power {
            Power::Spinning => self.tail,
            Power::Parked | Power::Absent => Tail::Other,
        }
    }

    /// Gives a disk that spins this label, and says whether it has it now. There may be no room for
    /// one, or other bytes in its place. After an error of the device the next call fails.
    pub(crate) fn give_label(&mut self, label: &Label) -> bool
        ensures slot { image_slot self.new ≡ image_slot self.old }
        ensures first { IsSome self.old.cause → self.new.cause ≡ self.old.cause }
        ensures misfit { self.new.misfit ≡ self.old.misfit }
        ensures tail { self.new.tail ≡ self.old.tail }
        ensures shut { has_file self.old ≡ false → has_file self.new ≡ false }
        ensures given { result ≡ true → (self.old.power ≡ Spinning) × CanHaveLabel self.old.tail }
    {
        if self.power != Power::Spinning {
            return false;
        }
        match put_label(&self.file, self.size, &self.tail, label) {
            Ok(given) => given,
            Err(error) => {
                self.cause = self.cause.or(Some(error));
                self.file = None;
                false
            }
        }
    }

    /// The number of disks of the array whose log this disk has, if it spins and has one.
    pub(crate) fn disks_by_log(&self) -> Option<u8> {
        if self.power != Power::Spinning {
            return None;
        }
        let file = self.file.as_ref()?;
        disks_at(file, self.size, META).unwrap_or(None)
    }

    /// What a new array would write over.
    pub(crate) fn claim<F: Files<File = File>>(&self, files: &F) -> Option<Claim> {
        if self.file.is_some() {
            return claim_of(&self.file);
        }
        match find(files, self.names.image.as_str()) {
            Found::Open(file) => claim_of(&Some(file)),
            Found::Nothing if self.names.has_sidecar(files) => Some(Claim::Sidecar),
            Found::Nothing | Found::Lost(_) | Found::Shut(_) => None,
        }
    }

    /// What hinders that the disk is attached anew, also where it has failed.
    pub(crate) fn hinders_attach<F: Files<File = File>>(&self, files: &F) -> Option<Hindrance>
        ensures { IfSome (image_hindrance self.now) (λ hindrance. result ≡ Some hindrance) }
    {
        if self.hindrance.is_some() || self.file.is_some() {
            return self.hindrance;
        }
        match open_image(files, self.names.image.as_str()) {
            Opened::Hindered(hindrance) => Some(hindrance),
            Opened::Image(_, _) | Opened::Lost(_) => None,
        }
    }

    pub(crate) fn read<F: Files<File = File>>(
        &mut self,
        files: &F,
        place: Place,
        into: &mut Block,
    ) -> Result<(), Failed>
        ensures slot { Becomes (image_slot self.old) (image_slot self.new) (image_slot self.old)
            (image_slot self.old).unsynced (is_ok result) }
        ensures cause { TellsCause self.old self.new (is_ok result) }
        ensures opened { OnOk result (has_file self.old ≡ true) }
    {
        match read_block(&self.file, place, into) {
            Ok(()) => Ok(()),
            Err(error) => Err(self.fail_by(files, error)),
        }
    }

    /// Writes the bytes of one block, or of several that follow one another.
    pub(crate) fn write<F: Files<File = File>>(
        &mut self,
        files: &F,
        first: Place,
        bytes: &[u8],
    ) -> Result<(), Failed>
        requires { (image_slot self.old).power ≡ Spinning }
        ensures slot { Becomes (image_slot self.old) (image_slot self.new)
            (record (image_slot self.old) { unsynced = true }) true (is_ok result) }
        ensures cause { TellsCause self.old self.new (is_ok result) }
        ensures opened { OnOk result (has_file self.old ≡ true) }
    {
        self.unsynced = true;
        match write_bytes(&self.file, first, bytes) {
            Ok(()) => Ok(()),
            Err(error) => Err(self.fail_by(files, error)),
        }
    }

    pub(crate) fn sync<F: Files<File = File>>(&mut self, files: &F) -> Result<(), Failed>
        ensures slot { Becomes (image_slot self.old) (image_slot self.new)
            (record (image_slot self.old) { unsynced = false })
            (image_slot self.old).unsynced (is_ok result) }
        ensures cause { TellsCause self.old self.new (is_ok result) }
        ensures opened { OnOk result (has_file self.old ≡ true) }
    {
        match sync_blocks(&self.file) {
            Ok(()) => self.unsynced = false,
            Err(error) => return Err(self.fail_by(files, error)),
        }
        Ok(())
    }

    pub(crate) fn park<F: Files<File = File>>(&mut self, files: &F) -> Result<(), Failed>
        requires spinning { (image_slot self.old).power ≡ Spinning }
        requires synced { (image_slot self.old).unsynced ≡ false }
        ensures slot { Becomes (image_slot self.old) (image_slot self.new)
            (record (image_slot self.old) { power = Parked }) false (is_ok result) }
        ensures cause { TellsCause self.old self.new (is_ok result) }
    {
        self.switch(files, Power::Parked)
    }

    /// The image is looked at first, where its array is known. One that does not belong here is
    /// left as it is, and the disk has failed.
    pub(crate) fn spin_up<F: Files<File = File>>(
        &mut self,
        files: &F,
        identity: &mut Option<Identity>,
        disk: DiskNo,
    ) -> Result<(), Failed>
        requires { (image_slot self.old).power ≡ Parked }
        ensures slot { Becomes (image_slot self.old) (image_slot self.new)
            (record (image_slot self.old) { power = Spinning }) false (is_ok result) }
        ensures fits { OnOk result (IfSome identity.old (λ i. disk < i.disks
            → FitsTailLate i self.new.tail disk)) }
        ensures known { known_array identity.new ≡ known_array identity.old }
        ensures others { IfSome identity.old (λ old. IfSome identity.new
            (λ new. KeepsOthers old new disk)) }
        ensures same { IfSome identity.old (λ old. IfSome identity.new
            (λ new. new.generation ≡ old.generation)) }
        ensures cause { KeepsCause self.old.cause self.new.cause (is_ok result) }
        ensures why { OnErr result (IsSome self.new.misfit ⊎ IsSome self.new.cause) }
        ensures read { OnOk result (IfSome identity.old (λ _. self.new.tail ≢ Unread)) }
        ensures is_open { OnOk result (IfSome identity.old (λ _. has_file self.new ≡ true)) }
        ensures shut { has_file self.old ≡ false → has_file self.new ≡ false }
    {
        match identity {
            Some(identity) => {
                self.look(files, identity, disk)?;
                self.switch(files, Power::Spinning)
            }
            None => self.switch(files, Power::Spinning),
        }
    }

    // Reads the label of a parked image, and gives it the one of this generation if it fits.
    fn look<F: Files<File = File>>(
        &mut self,
        files: &F,
        identity: &mut Identity,
        disk: DiskNo,
    ) -> Result<(), Failed>
        requires { (image_slot self.old).power ≡ Parked }
        ensures slot { Becomes (image_slot self.old) (image_slot self.new) (image_slot self.old)
            false (is_ok result) }
        ensures fits { OnOk result (disk < identity.old.disks
            → FitsTailLate identity.old self.new.tail disk) }
        ensures known { known_array (Some identity.new) ≡ known_array (Some identity.old) }
        ensures others { KeepsOthers identity.old identity.new disk }
        ensures same { identity.new.generation ≡ identity.old.generation }
        ensures cause { KeepsCause self.old.cause self.new.cause (is_ok result) }
        ensures why { OnErr result (IsSome self.new.misfit ⊎ IsSome self.new.cause) }
        ensures read { OnOk result (self.new.tail ≢ Unread) }
        ensures is_open { OnOk result (has_file self.new ≡ true) }
        ensures shut { has_file self.old ≡ false → has_file self.new ≡ false }
        ensures given { OnOk result ((identity.new ≡ identity.old)
            ⊎ CanHaveLabel self.new.tail) }
    {
        match tail_of(&self.file, self.size) {
            Ok(tail) => self.tail = tail,
            Err(error) => return Err(self.fail_by(files, error)),
        }
        self.misfit = identity.late_misfit_of(&self.tail, disk);
        if self.misfit.is_some() {
            return Err(self.fail(files));
        }
        match mark_image(&self.file, self.size, &self.tail, identity, disk) {
            Ok(_) => Ok(()),
            Err(error) => Err(self.fail_by(files, error)),
        }
    }

    // A synced disk gets this power.
    fn switch<F: Files<File = File>>(&mut self, files: &F, power: Power) -> Result<(), Failed>
        requires present { power ≢ Absent }
        requires synced { (image_slot self.old).unsynced ≡ false }
        ensures slot { Becomes (image_slot self.old) (image_slot self.new)
            (record (image_slot self.old) { power = power }) false (is_ok result) }
        ensures cause { TellsCause self.old self.new (is_ok result) }
        ensures stays { OnOk result (has_file self.new ≡ has_file self.old) }
    {
        match self.names.store(files, power) {
            Ok(()) => self.power = power,
            Err(error) => return Err(self.fail_by(files, error)),
        }
        Ok(())
    }

    /// The image is newer than each that has a label, also than the one that it replaces. The
    /// others know it from the next sync on. An image of another array is left as it is, and so is
    /// a file of other data, and the disk has failed.
    pub(crate) fn attach<F: Files<File = File>>(
        &mut self,
        files: &F,
        identity: &mut Option<Identity>,
        disk: DiskNo,
        size: u32,
    ) -> Result<(), Failed>
        ensures slot { Becomes (image_slot self.old) (image_slot self.new)
            (record (image_slot self.old) { power = Spinning; size = size; unsynced = false })
            (image_slot self.old).unsynced (is_ok result) }
        ensures newer { OnOk result (IfSome identity.old (λ old. IfSome identity.new
            (λ new. HasRisen old.generation new.generation))) }
        ensures again { OnOk result (IfSome identity.old (λ old. IfSome identity.new
            (λ new. new.is_new ≡ true))) }
        ensures known { known_array identity.new ≡ known_array identity.old }
        ensures others { IfSome identity.old (λ old. IfSome identity.new
            (λ new. KeepsOthers old new disk)) }
        ensures labelled { OnOk result (IfSome identity.old (λ old. IfSome identity.new
            (λ new. disk < old.disks → disk < 8 → slice_index new.known disk ≡ new.generation))) }
        ensures mended { OnOk result ((self.new.misfit ≡ None) × (self.new.cause ≡ None)) }
        ensures blank { OnOk result (self.new.tail ≡ Blank) }
        ensures why { OnErr result (IsSome self.new.misfit ⊎ IsSome self.new.cause) }
    {
        self.file = None; // and its lock
        self.misfit = None;
        self.cause = None;
        match obstacle_at(files, self.names.image.as_str(), identity) {
            Ok(None) => {}
            Ok(Some(Obstacle::Foreign)) => {
                self.misfit = Some(Misfit::Foreign);
                return Err(self.fail(files));
            }
            Ok(Some(Obstacle::Data)) => return Err(self.fail_by(files, other_data())),
            Err(error) => return Err(self.fail_by(files, error)),
        }
        match make_image(files, &self.names, identity, disk, size) {
            Ok(file) => self.file = file,
            Err(error) => return Err(self.fail_by(files, error)),
        }
        self.tail = Tail::Blank;
        self.power = Power::Spinning;
        self.size = size;
        self.unsynced = false;
        self.attached = true;
        Ok(())
    }

    // There is no disk from now on, and why is kept, unless a call has failed before.
    fn fail_by<F: Files<File = File>>(&mut self, files: &F, error: io::Error) -> Failed
        ensures slot { IsFailedSlot (image_slot self.old) (image_slot self.new) }
        ensures cause { TellsCause self.old self.new false }
    {
        self.cause = self.cause.or(Some(error));
        self.fail(files)
    }

    // There is no disk from now on, and one more fault.
    fn fail<F: Files<File = File>>(&mut self, files: &F) -> Failed
        ensures slot { IsFailedSlot (image_slot self.old) (image_slot self.new) }
        ensures misfit { self.new.misfit ≡ self.old.misfit }
        ensures cause { self.new.cause ≡ self.old.cause }
        ensures tail { self.new.tail ≡ self.old.tail }
        ensures shut { has_file self.new ≡ false }
    {
        self.names.store_failed(files);
        self.file = None;
        self.power = Power::Absent;
        self.size = 0;
        self.faults = self.faults.saturating_add(1);
        Failed
    }
}

/// The offset of a block in an image, in bytes.
pub(crate) fn offset(place: Place) -> u64
    ensures { result ≡ place * 512 }
{
    place as u64 * BLOCK_SIZE as u64
}

// An error of an image that is not open.
fn not_open() -> io::Error {
    io::Error::from(io::ErrorKind::NotFound)
}

// The error of an attach that would write over a file of other data.
fn other_data() -> io::Error {
    io::Error::new(
        io::ErrorKind::AlreadyExists,
        "the file there holds other data",
    )
}

// The error of an attach whose image gets no label: the others know one of the old image.
fn no_room_for_label() -> io::Error {
    io::Error::new(io::ErrorKind::StorageFull, "no room for its label")
}

/// What became of an image that was to be opened.
#[derive(Drop)]
enum Opened {
    /// It has its lock, and so many blocks.
    Image(File, u32),
    /// There is no disk; why, unless nothing stands there.
    Lost(Option<io::Error>),
    Hindered(Hindrance),
}

fn open_image<F: Files<File = File>>(files: &F, name: &str) -> Opened {
    let file = match find(files, name) {
        Found::Open(file) => file,
        Found::Nothing => return Opened::Lost(None),
        Found::Lost(error) => return Opened::Lost(Some(error)),
        Found::Shut(error) => return Opened::Hindered(Hindrance::ImageShut(error)),
    };
    if is_locked(&file) {
        return Opened::Hindered(Hindrance::Busy);
    }
    match file.metadata() {
        Ok(found) => Opened::Image(file, whole_blocks(found.len())),
        Err(error) => Opened::Lost(Some(error)),
    }
}

// Opens an image at a load. What a process that was killed has written may be in the system's
// memory alone, so the disk takes it before anything is read. Where it does not, the sidecar says
// that the disk has failed: writes may be lost, and the system tells it once.
fn open_kept<F: Files<File = File>>(files: &F, names: &Names, power: Power) -> Opened {
    match open_image(files, names.image.as_str()) {
        Opened::Image(file, size) if power == Power::Spinning => match file.sync_data() {
            Ok(()) => Opened::Image(file, size),
            Err(error) => {
                names.store_failed(files);
                Opened::Lost(Some(error))
            }
        },
        opened => opened,
    }
}

/// How many whole blocks a file of this many bytes has, at most `u32::MAX`.
pub(crate) fn whole_blocks(length: u64) -> u32
    ensures { result ≡ min (length / 512) 4294967295 }
{
    (length / BLOCK_SIZE as u64).min(u32::MAX as u64) as u32
}

// A fresh image of zeros, with its label where its array is known. Until both are on the disk, the
// sidecar tells of no disk: an image without a label is refused where the others know of one.
fn make_image<F: Files<File = File>>(
    files: &F,
    names: &Names,
    identity: &mut Option<Identity>,
    disk: DiskNo,
    size: u32,
) -> io::Result<Option<File>>
    ensures newer { OnOk result (IfSome identity.old (λ old. IfSome identity.new
        (λ new. HasRisen old.generation new.generation))) }
    ensures again { OnOk result (IfSome identity.old (λ old. IfSome identity.new
        (λ new. new.is_new ≡ true))) }
    ensures known { known_array identity.new ≡ known_array identity.old }
    ensures others { IfSome identity.old (λ old. IfSome identity.new
        (λ new. KeepsOthers old new disk)) }
    ensures labelled { OnOk result (IfSome identity.old (λ old. IfSome identity.new
        (λ new. disk < old.disks → disk < 8 → slice_index new.known disk ≡ new.generation))) }
{
    names.store(files, Power::Absent)?;
    let file = Some(create_image(files, names.image.as_str(), size)?);
    label_new(&file, size, identity, disk)?;
    names.store(files, Power::Spinning)?;
    Ok(file)
}

// Gives a new image its label, where its array is known: it is newer than all others.
fn label_new(
    file: &Option<File>,
    size: u32,
    identity: &mut Option<Identity>,
    disk: DiskNo,
) -> io::Result<()>
    ensures newer { IfSome identity.old (λ old. IfSome identity.new
        (λ new. HasRisen old.generation new.generation)) }
    ensures again { IfSome identity.old (λ old. IfSome identity.new (λ new. new.is_new ≡ true)) }
    ensures known { known_array identity.new ≡ known_array identity.old }
    ensures others { IfSome identity.old (λ old. IfSome identity.new
        (λ new. KeepsOthers old new disk)) }
    ensures labelled { OnOk result (IfSome identity.old (λ old. IfSome identity.new
        (λ new. disk < old.disks → disk < 8 → slice_index new.known disk ≡ new.generation))) }
{
    match identity {
        Some(identity) => label_newest(file, size, identity, disk),
        None => Ok(()),
    }
}

// In a slot of the array an image that can have no label is an error.
fn label_newest(
    file: &Option<File>,
    size: u32,
    identity: &mut Identity,
    disk: DiskNo,
) -> io::Result<()>
    ensures newer { HasRisen identity.old.generation identity.new.generation }
    ensures again { identity.new.is_new ≡ true }
    ensures known { known_array (Some identity.new) ≡ known_array (Some identity.old) }
    ensures others { KeepsOthers identity.old identity.new disk }
    ensures labelled { OnOk result (disk < identity.old.disks → disk < 8
        → slice_index identity.new.known disk ≡ identity.new.generation) }
{
    identity.renew();
    match mark_image(file, size, &Tail::Blank, identity, disk) {
        Ok(given) if given || disk >= identity.disks => Ok(()),
        Ok(_) => Err(no_room_for_label()),
        Err(error) => Err(error),
    }
}

// The bytes come straight into the block. After an error they are any.
fn read_block(file: &Option<File>, place: Place, into: &mut Block) -> io::Result<()>
    ensures { OnOk result (IsSome file.now) }
{
    let Some(file) = file else {
        return Err(not_open());
    };
    let bytes = &mut into.bytes;
    let read = read_whole(file, bytes, offset(place));
    *bytes = as_bytes(*bytes);
    read
}

// The same array, which as a value is known to hold 512 numbers below 256. No code comes of it.
fn as_bytes(bytes: [u8; BLOCK_SIZE]) -> [u8; BLOCK_SIZE]
    ensures same { result ≡ bytes }
    ensures whole { length result ≡ 512 }
    ensures small { (k : ℕ) → slice_index result k < 256 }
{
    bytes
}

// Reads a block by one call, where one does. The library goes on after an interrupted or a short
// one.
fn read_whole(file: &File, bytes: &mut [u8; BLOCK_SIZE], at: u64) -> io::Result<()> {
    match file.read_at(bytes, at) {
        Ok(BLOCK_SIZE) => Ok(()),
        Ok(_) => file.read_exact_at(bytes, at),
        Err(error) if error.kind() == io::ErrorKind::Interrupted => file.read_exact_at(bytes, at),
        Err(error) => Err(error),
    }
}

// Writes all bytes by one call, where one does. The library goes on after an interrupted or a
// short one.
fn write_whole(file: &File, bytes: &[u8], at: u64) -> io::Result<()> {
    match file.write_at(bytes, at) {
        Ok(written) if written == bytes.len() => Ok(()),
        Ok(_) => file.write_all_at(bytes, at),
        Err(error) if error.kind() == io::ErrorKind::Interrupted => file.write_all_at(bytes, at),
        Err(error) => Err(error),
    }
}

fn write_bytes(file: &Option<File>, first: Place, bytes: &[u8]) -> io::Result<()>
    ensures { OnOk result (IsSome file.now) }
{
    let Some(file) = file else {
        return Err(not_open());
    };
    write_whole(file, bytes, offset(first))
}

fn sync_blocks(file: &Option<File>) -> io::Result<()>
    ensures { OnOk result (IsSome file.now) }
{
    let Some(file) = file else {
        return Err(not_open());
    };
    // (the `?` moves an error where there is one, and nothing where there is none)
    file.sync_data()?;
    Ok(())
}

fn tail_of(file: &Option<File>, size: u32) -> io::Result<Tail>
    ensures read { IfOk result (λ tail. tail ≢ Unread) }
    ensures opened { OnOk result (IsSome file.now) }
{
    let Some(file) = file else {
        return Err(not_open());
    };
    read_tail(file, size)
}

fn label_in(tail: &Tail) -> Option<Label>
    ensures { result ≡ label_of tail.now }
{
    match tail {
        Tail::Label(label) => Some(*label),
        Tail::Blank | Tail::Torn | Tail::Other | Tail::Odd | Tail::Unread => None,
    }
}

// Writes a label where one can stand, and syncs the image. Where there is no room for it, it is
// left out.
fn put_label(file: &Option<File>, size: u32, tail: &Tail, label: &Label) -> io::Result<bool>
    ensures { IfOk result (λ given. given ≡ true → CanHaveLabel tail.now) }
{
    let Some(file) = file else {
        return Err(not_open());
    };
    if let Tail::Other | Tail::Odd | Tail::Unread = tail {
        return Ok(false);
    }
    match write_label(file, size, label) {
        Ok(()) => {}
        Err(error) if is_want_of_room(&error) => return Ok(false),
        Err(error) => return Err(error),
    }
    // (where this fails, blocks that were written before are lost too, also for want of room)
    file.sync_data()?;
    Ok(true)
}

// Gives an image the label of this generation, where it can have one, and says whether it has it
// now. Its error is one of the device.
fn mark_image(
    file: &Option<File>,
    size: u32,
    tail: &Tail,
    identity: &mut Identity,
    disk: DiskNo,
) -> io::Result<bool>
    ensures newer { identity.new.generation ≡ identity.old.generation }
    ensures again { identity.new.is_new ≡ identity.old.is_new }
    ensures known { known_array (Some identity.new) ≡ known_array (Some identity.old) }
    ensures others { KeepsOthers identity.old identity.new disk }
    ensures given { IfOk result (λ given. given ≡ true → disk < 8
        → slice_index identity.new.known disk ≡ identity.new.generation) }
    ensures over { IfOk result (λ given. given ≡ true → CanHaveLabel tail.now) }
    ensures kept { IfOk result (λ given. given ≡ false → identity.new ≡ identity.old) }
{
    if disk < identity.disks && put_label(file, size, tail, &identity.label(disk, true))? {
        identity.mark(disk as usize);
        return Ok(true);
    }
    Ok(false)
}

/// With this a meta begins.
const MAGIC: &[u8; 8] = b"PARAIDAR";

/// Where a meta says the number of its disks: after the text and the version.
const META_DISKS_AT: usize = 10;

// The number of disks that a meta at this place says, if one is there.
fn disks_at(file: &File, size: u32, place: Place) -> io::Result<Option<u8>> {
    if size <= place {
        return Ok(None);
    }
    let mut meta = [0; BLOCK_SIZE];
    file.read_exact_at(&mut meta, offset(place))?;
    let disks = meta[META_DISKS_AT];
    if meta[..8] == MAGIC[..] && 3 <= disks && disks <= 8 {
        return Ok(Some(disks));
    }
    Ok(None)
}

// Whether an image has the label of an array, or a log, or other data, or may have them since it
// cannot be read.
fn claim_of(file: &Option<File>) -> Option<Claim> {
    let file = file.as_ref()?;
    match is_of_array(file) {
        Ok(true) => Some(Claim::Image),
        Ok(false) => claim_by_data(file),
        Err(_) => Some(Claim::Unread),
    }
}

fn claim_by_data(file: &File) -> Option<Claim> {
    match holds_data(file) {
        Ok(true) => Some(Claim::Data),
        Ok(false) => None,
        Err(_) => Some(Claim::Unread),
    }
}

fn is_of_array(file: &File) -> io::Result<bool> {
    let size = whole_blocks(file.metadata()?.len());
    if let Tail::Label(_) = read_tail(file, size)? {
        return Ok(true);
    }
    Ok(disks_at(file, size, META)?.is_some() || disks_at(file, size, BATCH_META)?.is_some())
}
