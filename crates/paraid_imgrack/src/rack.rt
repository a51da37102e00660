//! Each call of the rack is a call on one image.
ghost use Rattle.std.specs.Prelude.{◌≡◌, ℕ, ◌≤◌, length};

use crate::found::has_descriptors;
use crate::identity::Identity;
use crate::image::{Hindrance, Image};
use crate::power::keep_sidecars;
use paraid_base::{BLOCK_SIZE, Block, DiskNo, Failed, NoMemory, Place};
use paraid_gather::BulkRack;
use paraid_rack::{Power, Rack};
use std::alloc::Global;
use std::fs::{File, Files};

/// How many files more are open at once at most, while a sidecar is stored or a disk attached.
const SPARE: u8 = 2;

/// The slots of the disks of the current folder.
///
/// A missing image, and a sidecar whose text is neither `spinning` nor `parked`, is an absent disk.
/// An image with no sidecar is a spinning disk. After a failed call the sidecar says `failed`.
/// Each image that is open is locked.
#[derive(Drop)]
pub struct ImageRack<F> {
    pub(crate) files: F,
    pub(crate) images: Vec<Image>,
    /// What the labels say, once they were read.
    pub(crate) identity: Option<Identity>,
    ghost few: { length images.items ≤ 8 },
}

impl<F: Files<File = File> + Drop> ImageRack<F> {
    ghost use Rattle.std.specs.Prelude.{◌<◌, IfOk, IfNone, IfSome, None};
    ghost use Rattle.paraid_imgrack.specs.Calls.{IsBlameless};
    ghost use Rattle.paraid_imgrack.specs.Images.{IsLoaded, FirstHindrance, hindrance_at};
    ghost use Rattle.paraid_imgrack.specs.Looks.{HasNoMisfits, IsUnhindered, IsAsOpened};

    /// The rack of the disks 0 to `slots - 1`, as their files tell them.
    ///
    /// Its one error is want of memory for the names and slots. A file that cannot be opened is no
    /// error: its slot is absent. The calls of the rack take no memory.
    pub fn load(files: F, alloc: Global, slots: u8) -> Result<ImageRack<F>, NoMemory>
        requires { slots ≤ 8 }
        ensures slots { IfOk result (λ rack. ⟦<ImageRack<F> as Rack>⟧.slot_count rack ≡ slots) }
        ensures told { IfOk result (λ rack. ⟦<ImageRack<F> as Rack>⟧.told rack ≡ None) }
        ensures loaded { IfOk result (λ rack. (d : ℕ) → d < slots
            → IsLoaded (⟦<ImageRack<F> as Rack>⟧.slot rack d)) }
        ensures opened { IfOk result IsAsOpened }
        ensures fresh { IfOk result HasNoMisfits }
        ensures unknown { IfOk result (λ rack. rack.identity ≡ None) }
        ensures clean { IfOk result (λ rack. (d : ℕ) → d < slots
            → IsBlameless rack.images.items d) }
    {
        let Ok(mut images) = Vec::with_capacity(alloc, slots as usize) else {
            return Err(NoMemory);
        };
        if slots > 0 {
            keep_sidecars(&files);
        }
        for disk in 0..slots {
            images.push_reserved(Image::load(&files, alloc, disk)?);
        }
        Ok(ImageRack {
            files,
            images,
            identity: None,
        })
    }

    /// The first disk that is there and can be neither served nor called lost, and why. The slot is
    /// absent; what is done to the others then would take the disk out of the array.
    pub fn hindrance(&self) -> Option<(DiskNo, Hindrance)>
        ensures none { IfNone result (IsUnhindered self.now) }
        ensures first { IfSome result (λ found.
            FirstHindrance self.now.images.items found.0 found.1) }
    {
        for disk in 0..self.images.len() {
            if let Some(hindrance) = self.hindrance_in(disk) {
                return Some((disk as u8, hindrance));
            }
        }
        None
    }

    /// The same before disks are attached anew, so also of the image of a disk that has failed.
    pub fn hinders_attach(&self) -> Option<(DiskNo, Hindrance)>
        ensures none { IfNone result (IsUnhindered self.now) }
        ensures within { IfSome result (λ found. found.0 < length self.now.images.items) }
        ensures first { IfSome result (λ found. (e : ℕ) → e < found.0
            → hindrance_at self.now.images.items e ≡ None) }
        ensures kept { IfSome result (λ found. IfSome (hindrance_at self.now.images.items found.0)
            (λ hindrance. found.1 ≡ hindrance)) }
    {
        for disk in 0..self.images.len() {
            if let Some(hindrance) = self.hinders_attach_in(disk) {
                return Some((disk as u8, hindrance));
            }
        }
        None
    }

    fn hindrance_in(&self, disk: usize) -> Option<Hindrance>
        requires { disk < length self.now.images.items }
        ensures { result ≡ hindrance_at self.now.images.items disk }
    {
        self.images[disk].hindrance
    }

    fn hinders_attach_in(&self, disk: usize) -> Option<Hindrance>
        requires { disk < length self.now.images.items }
        ensures { IfSome (hindrance_at self.now.images.items disk)
            (λ hindrance. result ≡ Some hindrance) }
    {
        self.images[disk].hinders_attach(&self.files)
    }

    /// Whether this process may open too few files more: a sidecar could not be stored, and its
    /// disk would be lost.
    pub fn is_crowded(&self) -> bool {
        !has_descriptors(&self.files, SPARE)
    }

    /// The same before disks are attached anew: each that is absent opens its image then.
    pub fn crowds_attach(&self) -> bool {
        !has_descriptors(&self.files, self.count_absent().saturating_add(SPARE))
    }

    fn count_absent(&self) -> u8 {
        let mut count: u8 = 0;
        for disk in 0..self.images.len() {
            if self.images[disk].power == Power::Absent {
                count = count.saturating_add(1);
            }
        }
        count
    }
}

impl<F: Files<File = File> + Drop> Rack for ImageRack<F> {
    ghost use Rattle.std.specs.Prelude.{◌≢◌, ◌<◌, ◌⊎◌, true, false, slice_index, None, Some, IfSome, IsSome, OnErr, OnOk, is_ok};
    ghost use Rattle.paraid_base.specs.Told.{HasRisen};
    ghost use Rattle.paraid_rack.specs.declared.call.Call.TheVariants.{Attach, Park, Read, SpinUp, Sync, Write};
    ghost use Rattle.paraid_rack.specs.declared.call.Power.TheVariants.{Spinning, Parked};
    ghost use Rattle.paraid_rack.specs.Slots.{ChangesOneSlot};
    ghost use Rattle.paraid_rack.specs.Told.{GrowsByCall};
    ghost use Rattle.paraid_rack.specs.Trail.{Trail, now};
    ghost use Rattle.paraid_imgrack.specs.Calls.{KeepsCause, KeepsFound, KeepsKnown, KeepsOtherImages, TellsCauseAt, cause_at, has_file_at};
    ghost use Rattle.paraid_imgrack.specs.Images.{IsTold, image_slot_at, misfit_at, tail_at};
    ghost use Rattle.paraid_imgrack.specs.Labels.{FitsTailLate, KeepsOthers, known_array};
    ghost use Rattle.paraid_imgrack.specs.Laws.{are_slots, nothing_told};
    ghost use Rattle.paraid_imgrack.specs.declared.tail.Tail.TheVariants.{Unread};

    ghost slot_count = { λ rack. length rack.images.items };

    ghost slot = { λ rack. image_slot_at rack.images.items };

    ghost told = { λ rack. None };

    ghost slots_hold = { λ rack. are_slots rack.images.items rack.few };

    ghost agrees = { λ rack trail told. nothing_told trail told };

    ghost lawful = { λ rack trail told. nothing_told trail told };

    fn slots(&self) -> u8 {
        self.images.len() as u8
    }

    fn size(&self, disk: DiskNo) -> u32 {
        self.images[disk as usize].size
    }

    fn power(&self, disk: DiskNo) -> Power {
        self.images[disk as usize].power
    }

    fn unsynced(&self, disk: DiskNo) -> bool {
        self.images[disk as usize].unsynced
    }

    fn read(&mut self, disk: DiskNo, place: Place, into: &mut Block) -> Result<(), Failed>
        requires exists { disk < length self.old.images.items }
        requires spinning { (image_slot_at self.old.images.items disk).power ≡ Spinning }
        requires within { place < (image_slot_at self.old.images.items disk).size }
        ensures slots { length self.new.images.items ≡ length self.old.images.items }
        ensures slot { ChangesOneSlot (image_slot_at self.old.images.items)
            (image_slot_at self.new.images.items) disk
            (image_slot_at self.old.images.items disk)
            (image_slot_at self.old.images.items disk).unsynced (is_ok result) }
        ensures told { GrowsByCall None None (Read disk place (is_ok result)) }
        ensures bytes { OnOk result ((t : Trail) → None ≡ Some t
            → into.new ≡ (now t).block disk place) }
        ensures known { self.new.identity ≡ self.old.identity }
        ensures causes { TellsCauseAt self.old.images.items self.new.images.items disk
            (is_ok result) }
        ensures opened { OnOk result (has_file_at self.old.images.items disk ≡ true) }
    {
        self.images[disk as usize].read(&self.files, place, into)
    }

    fn write(&mut self, disk: DiskNo, place: Place, block: &Block) -> Result<(), Failed>
        requires exists { disk < length self.old.images.items }
        requires spinning { (image_slot_at self.old.images.items disk).power ≡ Spinning }
        requires within { place < (image_slot_at self.old.images.items disk).size }
        ensures slots { length self.new.images.items ≡ length self.old.images.items }
        ensures slot { ChangesOneSlot (image_slot_at self.old.images.items)
            (image_slot_at self.new.images.items) disk
            (record (image_slot_at self.old.images.items disk) { unsynced = true })
            true (is_ok result) }
        ensures told { GrowsByCall None None (Write disk place block.now (is_ok result)) }
        ensures known { self.new.identity ≡ self.old.identity }
        ensures causes { TellsCauseAt self.old.images.items self.new.images.items disk
            (is_ok result) }
        ensures opened { OnOk result (has_file_at self.old.images.items disk ≡ true) }
    {
        self.images[disk as usize].write(&self.files, place, block.as_slice())
    }

    /// The labels are brought up to date first, where there is news.
    fn sync(&mut self, disk: DiskNo) -> Result<(), Failed>
        requires exists { disk < length self.old.images.items }
        requires spinning { (image_slot_at self.old.images.items disk).power ≡ Spinning }
        ensures slots { length self.new.images.items ≡ length self.old.images.items }
        ensures slot { ChangesOneSlot (image_slot_at self.old.images.items)
            (image_slot_at self.new.images.items) disk
            (record (image_slot_at self.old.images.items disk) { unsynced = false })
            (image_slot_at self.old.images.items disk).unsynced (is_ok result) }
        ensures told { GrowsByCall None None (Sync disk (is_ok result)) }
        ensures known { known_array self.new.identity ≡ known_array self.old.identity }
        ensures keeps { IfSome self.old.identity (λ old. IfSome self.new.identity
            (KeepsKnown self.old.images.items old)) }
        ensures labels { IfSome self.new.identity IsTold }
        ensures found { KeepsFound self.old.images.items self.new.images.items }
        ensures why { is_ok result ≡ false → IsSome (cause_at self.new.images.items disk) }
        ensures opened { OnOk result (has_file_at self.old.images.items disk ≡ true) }
    {
        self.renew_labels();
        self.images[disk as usize].sync(&self.files)
    }

    fn park(&mut self, disk: DiskNo) -> Result<(), Failed>
        requires exists { disk < length self.old.images.items }
        requires spinning { (image_slot_at self.old.images.items disk).power ≡ Spinning }
        requires synced { (image_slot_at self.old.images.items disk).unsynced ≡ false }
        ensures slots { length self.new.images.items ≡ length self.old.images.items }
        ensures slot { ChangesOneSlot (image_slot_at self.old.images.items)
            (image_slot_at self.new.images.items) disk
            (record (image_slot_at self.old.images.items disk) { power = Parked })
            false (is_ok result) }
        ensures told { GrowsByCall None None (Park disk (is_ok result)) }
        ensures known { self.new.identity ≡ self.old.identity }
        ensures causes { TellsCauseAt self.old.images.items self.new.images.items disk
            (is_ok result) }
    {
        self.images[disk as usize].park(&self.files)
    }

    /// An image that does not fit into its slot is left as it is, and its disk has failed.
    fn spin_up(&mut self, disk: DiskNo) -> Result<(), Failed>
        requires exists { disk < length self.old.images.items }
        requires parked { (image_slot_at self.old.images.items disk).power ≡ Parked }
        ensures slots { length self.new.images.items ≡ length self.old.images.items }
        ensures slot { ChangesOneSlot (image_slot_at self.old.images.items)
            (image_slot_at self.new.images.items) disk
            (record (image_slot_at self.old.images.items disk) { power = Spinning })
            false (is_ok result) }
        ensures told { GrowsByCall None None (SpinUp disk (is_ok result)) }
        ensures known { known_array self.new.identity ≡ known_array self.old.identity }
        ensures others { IfSome self.old.identity (λ old. IfSome self.new.identity
            (λ new. KeepsOthers old new disk)) }
        ensures same { IfSome self.old.identity (λ old. IfSome self.new.identity
            (λ new. new.generation ≡ old.generation)) }
        ensures fits { OnOk result (IfSome self.old.identity (λ i. disk < i.disks
            → FitsTailLate i (tail_at self.new.images.items disk) disk)) }
        ensures read { OnOk result (IfSome self.old.identity
            (λ _. tail_at self.new.images.items disk ≢ Unread)) }
        ensures is_open { OnOk result (IfSome self.old.identity
            (λ _. has_file_at self.new.images.items disk ≡ true)) }
        ensures shut { has_file_at self.old.images.items disk ≡ false
            → has_file_at self.new.images.items disk ≡ false }
        ensures images { KeepsOtherImages self.old.images.items self.new.images.items disk }
        ensures cause { KeepsCause (cause_at self.old.images.items disk)
            (cause_at self.new.images.items disk) (is_ok result) }
        ensures why { OnErr result (IsSome (misfit_at self.new.images.items disk)
            ⊎ IsSome (cause_at self.new.images.items disk)) }
    {
        self.images[disk as usize].spin_up(&self.files, &mut self.identity, disk)
    }

    /// The image is newer than each that has a label. What was told of the disk before is no more.
    fn attach(&mut self, disk: DiskNo, size: u32) -> Result<(), Failed>
        requires exists { disk < length self.old.images.items }
        ensures slots { length self.new.images.items ≡ length self.old.images.items }
        ensures slot { ChangesOneSlot (image_slot_at self.old.images.items)
            (image_slot_at self.new.images.items) disk
            (record (image_slot_at self.old.images.items disk)
            { power = Spinning; size = size; unsynced = false })
            (image_slot_at self.old.images.items disk).unsynced (is_ok result) }
        ensures told { GrowsByCall None None (Attach disk size (is_ok result)) }
        ensures known { known_array self.new.identity ≡ known_array self.old.identity }
        ensures others { IfSome self.old.identity (λ old. IfSome self.new.identity
            (λ new. KeepsOthers old new disk)) }
        ensures newer { OnOk result (IfSome self.old.identity (λ old. IfSome self.new.identity
            (λ new. HasRisen old.generation new.generation))) }
        ensures again { OnOk result (IfSome self.old.identity (λ old. IfSome self.new.identity
            (λ new. new.is_new ≡ true))) }
        ensures labelled { OnOk result (IfSome self.old.identity (λ old. IfSome self.new.identity
            (λ new. disk < old.disks → disk < 8
            → slice_index new.known disk ≡ new.generation))) }
        ensures images { KeepsOtherImages self.old.images.items self.new.images.items disk }
        ensures mended { OnOk result ((misfit_at self.new.images.items disk ≡ None)
            × (cause_at self.new.images.items disk ≡ None)) }
        ensures why { OnErr result (IsSome (misfit_at self.new.images.items disk)
            ⊎ IsSome (cause_at self.new.images.items disk)) }
    {
        self.images[disk as usize].attach(&self.files, &mut self.identity, disk, size)
    }
}

impl<F: Files<File = File> + Drop> BulkRack for ImageRack<F> {
    ghost use Rattle.std.specs.Prelude.{◌+◌, ◌<◌, true, None, OnOk, is_ok};
    ghost use Rattle.paraid_rack.specs.declared.call.Power.TheVariants.{Spinning};
    ghost use Rattle.paraid_rack.specs.Slots.{ChangesOneSlot};
    ghost use Rattle.paraid_rack.specs.Told.{Ran};
    ghost use Rattle.paraid_gather.specs.Bulk.{WritesBlocks};
    ghost use Rattle.paraid_imgrack.specs.Calls.{TellsCauseAt, has_file_at};
    ghost use Rattle.paraid_imgrack.specs.Images.{image_slot_at};

    fn write_blocks(
        &mut self,
        disk: DiskNo,
        first: Place,
        blocks: &[[u8; BLOCK_SIZE]],
    ) -> Result<(), Failed>
        requires exists { disk < length self.old.images.items }
        requires spinning { (image_slot_at self.old.images.items disk).power ≡ Spinning }
        requires some { 0 < length blocks.now }
        requires within { first + length blocks.now
            ≤ (image_slot_at self.old.images.items disk).size }
        ensures slots { length self.new.images.items ≡ length self.old.images.items }
        ensures slot { ChangesOneSlot (image_slot_at self.old.images.items)
            (image_slot_at self.new.images.items) disk
            (record (image_slot_at self.old.images.items disk) { unsynced = true })
            true (is_ok result) }
        ensures told { Ran None None
            (WritesBlocks disk (record { first = first; blocks = blocks.now }) (is_ok result)) }
        ensures known { self.new.identity ≡ self.old.identity }
        ensures causes { TellsCauseAt self.old.images.items self.new.images.items disk
            (is_ok result) }
        ensures opened { OnOk result (has_file_at self.old.images.items disk ≡ true) }
    {
        self.images[disk as usize].write(&self.files, first, blocks.as_flattened())
    }
}
