//! What each call asks of a disk, and what it leaves, done or failed.
ghost use Rattle.std.specs.Prelude.{◌≡◌, ◌<◌, ℕ, true, false, Option, Some, OnOk, is_ok};
ghost use Rattle.paraid_rack.specs.Slots.{Slot, ChangesOneSlot, AreSlots, Agrees};
ghost use Rattle.paraid_rack.specs.Trail.{Trail, initial, now};
ghost use Rattle.paraid_rack.specs.Lawful.{AreLawful};
ghost use Rattle.paraid_rack.specs.Told.{GrowsByCall};

use crate::{Call, Power};
use paraid_base::{Block, DiskNo, Failed, Place};

/// The most slots of a rack.
pub const MOST_SLOTS: u8 = 8;

/// The slots of an array, at most 8, each with a disk or none.
///
/// A failed call leaves its slot `Absent`, with its count of faults risen, until a done attach.
/// After a done call the slot is as before, but for what the call says. No call changes
/// another slot.
pub trait Rack {
    /// The number of slots. It never changes.
    ghost slot_count: { Self → ℕ };

    /// What is always told of a slot.
    ghost slot: { Self → ℕ → Slot };

    /// The start and the calls since then, where the rack tells them.
    ghost told: { Self → Option Trail };

    /// The number of slots, at most 8.
    fn slots(&self) -> u8
        ensures { result ≡ slot_count self.now };

    /// The number of blocks of a disk, 0 where there is none.
    fn size(&self, disk: DiskNo) -> u32
        requires { disk < slot_count self.now }
        ensures { result ≡ (slot self.now disk).size };

    /// How a disk is powered.
    fn power(&self, disk: DiskNo) -> Power
        requires { disk < slot_count self.now }
        ensures { result ≡ (slot self.now disk).power };

    /// Whether the disk was written, done or failed, since its last done sync or attach.
    fn unsynced(&self, disk: DiskNo) -> bool
        requires { disk < slot_count self.now }
        ensures { result ≡ (slot self.now disk).unsynced };

    /// Reads a block. After a failure `into` holds any bytes.
    fn read(&mut self, disk: DiskNo, place: Place, into: &mut Block) -> Result<(), Failed>
        requires exists { disk < slot_count self.old }
        requires spinning { (slot self.old disk).power ≡ Power.Spinning }
        requires within { place < (slot self.old disk).size }
        ensures slots { slot_count self.new ≡ slot_count self.old }
        ensures slot { ChangesOneSlot (slot self.old) (slot self.new) disk
            (slot self.old disk) (slot self.old disk).unsynced (is_ok result) }
        ensures told { GrowsByCall
            (told self.old) (told self.new) (Call.Read disk place (is_ok result)) }
        ensures bytes { OnOk result ((t : Trail) → told self.old ≡ Some t
            → into.new ≡ (now t).block disk place) };

    /// Writes a block. It is loose until a done sync, also where the call failed.
    fn write(&mut self, disk: DiskNo, place: Place, block: &Block) -> Result<(), Failed>
        requires exists { disk < slot_count self.old }
        requires spinning { (slot self.old disk).power ≡ Power.Spinning }
        requires within { place < (slot self.old disk).size }
        ensures slots { slot_count self.new ≡ slot_count self.old }
        ensures slot { ChangesOneSlot (slot self.old) (slot self.new) disk
            (record (slot self.old disk) { unsynced = true }) true (is_ok result) }
        ensures told { GrowsByCall (told self.old) (told self.new)
            (Call.Write disk place block.now (is_ok result)) };

    /// Makes the disk keep all that was written: no block of it is loose any more.
    fn sync(&mut self, disk: DiskNo) -> Result<(), Failed>
        requires exists { disk < slot_count self.old }
        requires spinning { (slot self.old disk).power ≡ Power.Spinning }
        ensures slots { slot_count self.new ≡ slot_count self.old }
        ensures slot { ChangesOneSlot (slot self.old) (slot self.new) disk
            (record (slot self.old disk) { unsynced = false }) (slot self.old disk).unsynced
            (is_ok result) }
        ensures told { GrowsByCall
            (told self.old) (told self.new) (Call.Sync disk (is_ok result)) };

    /// Parks a spinning disk.
    fn park(&mut self, disk: DiskNo) -> Result<(), Failed>
        requires exists { disk < slot_count self.old }
        requires spinning { (slot self.old disk).power ≡ Power.Spinning }
        requires synced { (slot self.old disk).unsynced ≡ false }
        ensures slots { slot_count self.new ≡ slot_count self.old }
        ensures slot { ChangesOneSlot (slot self.old) (slot self.new) disk
            (record (slot self.old disk) { power = Power.Parked }) false (is_ok result) }
        ensures told { GrowsByCall
            (told self.old) (told self.new) (Call.Park disk (is_ok result)) };

    /// Spins up a parked disk.
    fn spin_up(&mut self, disk: DiskNo) -> Result<(), Failed>
        requires exists { disk < slot_count self.old }
        requires parked { (slot self.old disk).power ≡ Power.Parked }
        ensures slots { slot_count self.new ≡ slot_count self.old }
        ensures slot { ChangesOneSlot (slot self.old) (slot self.new) disk
            (record (slot self.old disk) { power = Power.Spinning }) false (is_ok result) }
        ensures told { GrowsByCall
            (told self.old) (told self.new) (Call.SpinUp disk (is_ok result)) };

    /// Puts a fresh disk of `size` blocks of zeros into the slot, spinning.
    fn attach(&mut self, disk: DiskNo, size: u32) -> Result<(), Failed>
        requires exists { disk < slot_count self.old }
        ensures slots { slot_count self.new ≡ slot_count self.old }
        ensures slot { ChangesOneSlot (slot self.old) (slot self.new) disk
            (record (slot self.old disk) { power = Power.Spinning; size = size; unsynced = false })
            (slot self.old disk).unsynced (is_ok result) }
        ensures told { GrowsByCall (told self.old) (told self.new)
            (Call.Attach disk size (is_ok result)) };

    /// What holds of the slots at any time.
    ghost slots_hold: { (rack : Self) → AreSlots (slot_count rack) (slot rack) };

    /// What is told of the calls agrees with what is always told.
    ghost agrees: { (rack : Self) (t : Trail) → told rack ≡ Some t → Agrees (now t) (slot rack) };

    /// Each call that is told was lawful by the power of its disk as it was made.
    ghost lawful: { (rack : Self) (t : Trail) → told rack ≡ Some t
        → AreLawful (initial t.start) t.calls };
}
