//! The disks of an array as its layers above see them: a rack of which at most one disk is out.
ghost use Rattle.std.specs.Prelude.{◌≡◌, ◌≢◌, ℕ, ◌<◌, ◌≤◌, true, false, Some, None, OnOk, IfErr, is_ok};
ghost use Rattle.paraid_rack.specs.declared.call.Call.TheVariants.{Attach, Park, Read, SpinUp, Sync, Write};
ghost use Rattle.paraid_rack.specs.declared.call.Power.TheVariants.{Absent, Parked, Spinning};
ghost use Rattle.paraid_rack.specs.Slots.{ChangesOneSlot};
ghost use Rattle.paraid_rack.specs.Told.{GrowsByCall};
ghost use Rattle.paraid_rack.specs.Trail.{Trail, now};
ghost use Rattle.paraid_txn.specs.Borne.{IsBorneNow, IsBorneNow-prop};
ghost use Rattle.paraid_txn.specs.Losses.{IsLostBy};
ghost use Rattle.paraid_image.specs.Out.{first_absent as first_absent_of, named_out, or_else};

use paraid_base::{Block, DiskNo, Failed, Place, Two, WITNESS_DISK};
use paraid_rack::{Power, Rack};
use paraid_record::Meta;

/// Why a call on one disk was not done: that disk is lost.
#[derive(Clone, Copy)]
pub enum Lost {
    /// No other disk is out.
    One { disk: DiskNo },
    /// Another disk was out.
    Two(Two),
}

/// Owns the rack of an array, and knows the epoch of its last commit, the disk that the last meta
/// names out, and a log disk against which disk 2 bears witness.
///
/// It takes no memory. The array's number of disks is that of the meta with which it was made.
#[derive(Drop)]
pub struct Store<R: Rack> {
    pub(crate) rack: R,
    // how many disks the array has
    pub(crate) disks: u8,
    // the epoch of the last commit
    pub(crate) epoch: u64,
    // the disk that the last meta names out
    pub(crate) named: Option<DiskNo>,
    // a log disk against which disk 2 is known to bear witness
    pub(crate) borne: Option<DiskNo>,
    ghost exists: { disks ≤ R.slot_count rack },
    ghost known: { IsBorneNow borne (R.told rack) } by { IsBorneNow-prop borne (R.told rack) },
}

// The least absent slot of the first ones.
pub(crate) fn find_absent<R: Rack>(rack: &R, disks: u8) -> Option<DiskNo>
    requires { disks ≤ R.slot_count rack.now }
    ensures { result ≡ first_absent_of (λ d. (R.slot rack.now d).power) disks }
{
    for disk in 0..disks {
        if rack.power(disk) == Power::Absent {
            return Some(disk);
        }
    }
    None
}

// The disk that is down as a commit begins: an absent one, which gets no call; or else the one that
// the last meta names out, or the one that the meta given names.
pub(crate) fn out_first(
    absent: Option<DiskNo>,
    before: Option<DiskNo>,
    after: Option<DiskNo>,
) -> Option<DiskNo>
    ensures { result ≡ or_else absent (or_else before after) }
{
    if absent.is_some() {
        return absent;
    }
    if before.is_some() {
        return before;
    }
    after
}

// A call on this disk has failed, where this disk was out before it.
fn loss_of(out: Option<DiskNo>, disk: DiskNo) -> Lost
    ensures one { (d : ℕ) → result ≡ Lost.One d
        → (d ≡ disk) × ((first : ℕ) → out ≡ Some first → first ≡ disk) }
    ensures two { (two : _) → result ≡ Lost.Two two
        → (two.second ≡ disk) × (out ≡ Some two.first) × (two.first ≢ disk) }
{
    match Two::beside(out, disk) {
        Some(two) => Lost::Two(two),
        None => Lost::One { disk },
    }
}

// The witness that is borne where this place is written: none, if that is the place of one.
fn borne_beside(borne: Option<DiskNo>, disk: DiskNo, place: Place) -> Option<DiskNo>
    ensures known { (x : ℕ) → result ≡ Some x
        → (borne ≡ Some x) × ((2 ≡ disk) → x < 2 → x ≢ place) }
    ensures kept { (disk ≡ 2 → 2 ≤ place) → result ≡ borne }
{
    if disk == WITNESS_DISK && place < 2 {
        return None;
    }
    borne
}

// The witness that is borne where this disk is a fresh one: none, if that disk bore it.
fn borne_without(borne: Option<DiskNo>, disk: DiskNo) -> Option<DiskNo>
    ensures known { (x : ℕ) → result ≡ Some x → (borne ≡ Some x) × (2 ≢ disk) }
    ensures kept { disk ≢ 2 → result ≡ borne }
{
    if disk == WITNESS_DISK {
        return None;
    }
    borne
}

impl<R: Rack> Store<R> {
    ghost use Rattle.paraid_txn.specs.Stores.{IsSameStore, Remembers, borne_of, disks_of, epoch_of, named_of, store_out, store_rack};

    /// Takes over a rack whose last meta is this one. It makes no call of the rack.
    pub fn adopt(rack: R, meta: &Meta) -> Store<R>
        requires exists { meta.now.setup.geometry.disks ≤ R.slot_count rack }
        ensures rack { store_rack result ≡ rack }
        ensures disks { disks_of result ≡ meta.now.setup.geometry.disks }
        ensures epoch { epoch_of result ≡ meta.now.epoch }
        ensures named { named_of result ≡ named_out meta.now.out }
        ensures borne { borne_of result ≡ None }
    {
        Store {
            rack,
            disks: meta.setup.geometry.disks,
            epoch: meta.epoch,
            named: meta.out.named(),
            borne: None,
        }
    }

    /// Takes it as known that disk 2 bears witness against this log disk. It makes no call.
    pub fn note_borne(&mut self, disk: DiskNo)
        requires borne { IsBorneNow (Some disk) (R.told (store_rack self.old)) }
        ensures rack { store_rack self.new ≡ store_rack self.old }
        ensures same { IsSameStore self.old self.new }
        ensures borne { borne_of self.new ≡ Some disk }
    {
        self.borne = Some(disk);
    }

    /// Whether it knows that disk 2 bears witness against this disk.
    pub fn knows_borne(&self, disk: DiskNo) -> bool
        ensures known { result ≡ true → IsBorneNow (Some disk) (R.told (store_rack self.now)) }
        ensures yes { borne_of self.now ≡ Some disk → result ≡ true }
    {
        self.borne == Some(disk)
    }

    /// The least absent slot of the first ones.
    pub fn first_absent(&self, disks: u8) -> Option<DiskNo>
        requires { disks ≤ R.slot_count (store_rack self.now) }
        ensures { result ≡ first_absent_of (λ d. (R.slot (store_rack self.now) d).power) disks }
    {
        find_absent(&self.rack, disks)
    }

    /// Gives the rack back. It makes no call of it.
    pub fn close(self) -> R
        ensures { result ≡ store_rack self }
    {
        self.rack
    }

    /// The epoch of the last commit.
    pub fn epoch(&self) -> u64
        ensures { result ≡ epoch_of self.now }
    {
        self.epoch
    }

    /// How a disk is powered.
    pub fn power(&self, disk: DiskNo) -> Power
        requires { disk < R.slot_count (store_rack self.now) }
        ensures { result ≡ (R.slot (store_rack self.now) disk).power }
    {
        self.rack.power(disk)
    }

    /// The disk that is out: the one that the last meta names, or else the least absent one.
    pub fn out(&self) -> Option<DiskNo>
        ensures { result ≡ store_out R.slot self.now }
    {
        if self.named.is_some() {
            return self.named;
        }
        find_absent(&self.rack, self.disks)
    }

    /// Reads a block. After a failure `into` holds any bytes.
    pub fn read(&mut self, disk: DiskNo, place: Place, into: &mut Block) -> Result<(), Lost>
        requires exists { disk < R.slot_count (store_rack self.old) }
        requires spinning { (R.slot (store_rack self.old) disk).power ≡ Spinning }
        requires within { place < (R.slot (store_rack self.old) disk).size }
        ensures slots { R.slot_count (store_rack self.new) ≡ R.slot_count (store_rack self.old) }
        ensures same { IsSameStore self.old self.new }
        ensures remembers { Remembers self.old self.new }
        ensures slot { ChangesOneSlot (R.slot (store_rack self.old))
            (R.slot (store_rack self.new)) disk (R.slot (store_rack self.old) disk)
            (R.slot (store_rack self.old) disk).unsynced (is_ok result) }
        ensures told { GrowsByCall (R.told (store_rack self.old)) (R.told (store_rack self.new))
            (Read disk place (is_ok result)) }
        ensures bytes { OnOk result ((t : Trail) → R.told (store_rack self.old) ≡ Some t
            → into.new ≡ (now t).block disk place) }
        ensures lost { IfErr result (IsLostBy (store_out R.slot self.old) disk
            (R.slot (store_rack self.old)) (R.slot (store_rack self.new))) }
    {
        let out = self.out();
        let Ok(()) = self.rack.read(disk, place, into) else {
            return Err(loss_of(out, disk));
        };
        Ok(())
    }

    /// Makes a disk keep all that was written.
    pub fn sync(&mut self, disk: DiskNo) -> Result<(), Lost>
        requires exists { disk < R.slot_count (store_rack self.old) }
        requires spinning { (R.slot (store_rack self.old) disk).power ≡ Spinning }
        ensures slots { R.slot_count (store_rack self.new) ≡ R.slot_count (store_rack self.old) }
        ensures same { IsSameStore self.old self.new }
        ensures remembers { Remembers self.old self.new }
        ensures slot { ChangesOneSlot (R.slot (store_rack self.old)) (R.slot (store_rack self.new))
            disk (record (R.slot (store_rack self.old) disk) { unsynced = false })
            (R.slot (store_rack self.old) disk).unsynced (is_ok result) }
        ensures told { GrowsByCall (R.told (store_rack self.old)) (R.told (store_rack self.new))
            (Sync disk (is_ok result)) }
        ensures lost { IfErr result (IsLostBy (store_out R.slot self.old) disk
            (R.slot (store_rack self.old)) (R.slot (store_rack self.new))) }
    {
        let out = self.out();
        let Ok(()) = self.rack.sync(disk) else {
            return Err(loss_of(out, disk));
        };
        Ok(())
    }

    /// Writes a block past the log. Whatever a stop leaves of it, what is held stays held if the
    /// place is free and the gates are closed.
    pub fn write_free(&mut self, disk: DiskNo, place: Place, block: &Block) -> Result<(), Lost>
        requires exists { disk < R.slot_count (store_rack self.old) }
        requires spinning { (R.slot (store_rack self.old) disk).power ≡ Spinning }
        requires within { place < (R.slot (store_rack self.old) disk).size }
        ensures slots { R.slot_count (store_rack self.new) ≡ R.slot_count (store_rack self.old) }
        ensures same { IsSameStore self.old self.new }
        ensures remembers { (disk ≡ 2 → 2 ≤ place) → Remembers self.old self.new }
        ensures slot { ChangesOneSlot
            (R.slot (store_rack self.old)) (R.slot (store_rack self.new)) disk
            (record (R.slot (store_rack self.old) disk) { unsynced = true }) true (is_ok result) }
        ensures told { GrowsByCall (R.told (store_rack self.old)) (R.told (store_rack self.new))
            (Write disk place block.now (is_ok result)) }
        ensures lost { IfErr result (IsLostBy (store_out R.slot self.old) disk
            (R.slot (store_rack self.old)) (R.slot (store_rack self.new))) }
    {
        let out = self.out();
        self.borne = borne_beside(self.borne, disk, place);
        let Ok(()) = self.rack.write(disk, place, block) else {
            return Err(loss_of(out, disk));
        };
        Ok(())
    }

    /// Parks a spinning disk of which nothing is unsynced.
    pub fn park(&mut self, disk: DiskNo) -> Result<(), Lost>
        requires exists { disk < R.slot_count (store_rack self.old) }
        requires spinning { (R.slot (store_rack self.old) disk).power ≡ Spinning }
        requires synced { (R.slot (store_rack self.old) disk).unsynced ≡ false }
        ensures slots { R.slot_count (store_rack self.new) ≡ R.slot_count (store_rack self.old) }
        ensures same { IsSameStore self.old self.new }
        ensures remembers { Remembers self.old self.new }
        ensures slot { ChangesOneSlot
            (R.slot (store_rack self.old)) (R.slot (store_rack self.new)) disk
            (record (R.slot (store_rack self.old) disk) { power = Parked }) false (is_ok result) }
        ensures told { GrowsByCall (R.told (store_rack self.old)) (R.told (store_rack self.new))
            (Park disk (is_ok result)) }
        ensures lost { IfErr result (IsLostBy (store_out R.slot self.old) disk
            (R.slot (store_rack self.old)) (R.slot (store_rack self.new))) }
    {
        let out = self.out();
        let Ok(()) = self.rack.park(disk) else {
            return Err(loss_of(out, disk));
        };
        Ok(())
    }

    /// Spins up a parked disk.
    pub fn spin_up(&mut self, disk: DiskNo) -> Result<(), Lost>
        requires exists { disk < R.slot_count (store_rack self.old) }
        requires parked { (R.slot (store_rack self.old) disk).power ≡ Parked }
        ensures slots { R.slot_count (store_rack self.new) ≡ R.slot_count (store_rack self.old) }
        ensures same { IsSameStore self.old self.new }
        ensures remembers { Remembers self.old self.new }
        ensures slot { ChangesOneSlot
            (R.slot (store_rack self.old)) (R.slot (store_rack self.new)) disk
            (record (R.slot (store_rack self.old) disk) { power = Spinning }) false (is_ok result) }
        ensures told { GrowsByCall (R.told (store_rack self.old)) (R.told (store_rack self.new))
            (SpinUp disk (is_ok result)) }
        ensures lost { IfErr result (IsLostBy (store_out R.slot self.old) disk
            (R.slot (store_rack self.old)) (R.slot (store_rack self.new))) }
    {
        let out = self.out();
        let Ok(()) = self.rack.spin_up(disk) else {
            return Err(loss_of(out, disk));
        };
        Ok(())
    }

    /// Puts a fresh disk of `size` blocks of zeros into the slot, spinning.
    pub fn attach(&mut self, disk: DiskNo, size: u32) -> Result<(), Lost>
        requires exists { disk < R.slot_count (store_rack self.old) }
        ensures slots { R.slot_count (store_rack self.new) ≡ R.slot_count (store_rack self.old) }
        ensures same { IsSameStore self.old self.new }
        ensures remembers { disk ≢ 2 → Remembers self.old self.new }
        ensures slot { ChangesOneSlot (R.slot (store_rack self.old)) (R.slot (store_rack self.new))
            disk (record (R.slot (store_rack self.old) disk) {
              power = Spinning;
              size = size;
              unsynced = false;
            }) (R.slot (store_rack self.old) disk).unsynced (is_ok result) }
        ensures told { GrowsByCall (R.told (store_rack self.old)) (R.told (store_rack self.new))
            (Attach disk size (is_ok result)) }
        ensures lost { IfErr result (IsLostBy (store_out R.slot self.old) disk
            (R.slot (store_rack self.old)) (R.slot (store_rack self.new))) }
    {
        let out = self.out();
        self.borne = borne_without(self.borne, disk);
        let Ok(()) = self.rack.attach(disk, size) else {
            return Err(loss_of(out, disk));
        };
        Ok(())
    }
}
