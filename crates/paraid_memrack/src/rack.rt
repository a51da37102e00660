//! The rack in memory, and what each call makes of its slots, its log and its record.
ghost use Rattle.std.specs.Prelude.{◌≡◌, ◌≢◌, ℕ, ◌<◌, ◌≤◌, ◌^◌, length, true, false, not, Option, Some, [], OnOk, IfOk, IfSome, is_ok, replicate, map, slice_get, slice_set, IsSome};
ghost use Rattle.paraid_rack.specs.Slots.{Slot, ChangesOneSlot, AreSlots};
ghost use Rattle.paraid_rack.specs.declared.call.Power.TheVariants.{Absent};
ghost use Rattle.paraid_rack.specs.Trail.{Trail, now};
ghost use Rattle.paraid_rack.specs.Told.{GrowsByCall};
ghost use Rattle.paraid_memrack.specs.Slots.{told_slot_at, full_slot_at};
ghost use Rattle.paraid_memrack.specs.ToldLawful.{AreToldLawful, AreToldLawful-prop};
ghost use Rattle.paraid_memrack.specs.Tells.{told_by, beginning_of, AreSlotsOf};

use crate::list::{CallList, starts_of};
use crate::log::{Log, Start};
use crate::plan::Planned;
use crate::replay::left;
use crate::slot::{MemSlot, absent_slots, fail, fill, first_slots, mark_synced, put, remove, turn};
use crate::stop::Pick;
use paraid_base::{Block, DiskNo, Failed, NoMemory, Place};
use paraid_gather::BulkRack;
use paraid_rack::{Call, Power, Rack};
use std::alloc::Global;

/// Up to 8 slots in memory.
///
/// It tells its start and its calls. Once a call is made on a full list it tells them no more, and
/// a later call is neither listed nor planned, but each slot and each block stays right.
#[derive(Drop)]
pub struct MemRack {
    alloc: Global,
    room: u32,
    slots: Vec<MemSlot>,
    log: Log,
    ghost sound: { AreSlots (length slots.items) (told_slot_at slots.items) },
    ghost small: { (d : ℕ) → (told_slot_at slots.items d).size < 2 ^ 32 },
    ghost keeps: { AreSlotsOf (told_by log.tells log.start.items log.calls.items)
        (full_slot_at slots.items) },
    ghost same: { length log.start.items ≡ length slots.items },
    ghost lawful: { AreToldLawful
        (told_by log.tells log.start.items log.calls.items) } by { AreToldLawful-prop
            (told_by log.tells log.start.items log.calls.items) },
}

impl MemRack {
    ghost use Rattle.paraid_base.specs.Xor.{zero_block};
    ghost use Rattle.paraid_memrack.specs.CallPlan.{dirt_after};
    ghost use Rattle.paraid_rack.specs.Calls.{disk_of, is_done};
    ghost use Rattle.paraid_rack.specs.Lawful.{IsLawful};
    ghost use Rattle.paraid_rack.specs.Alike.{IsAlike};
    ghost use Rattle.paraid_rack.specs.Disks.{Disks, IsImage, lose};
    ghost use Rattle.paraid_rack.specs.Trail.{disks, initial};
    ghost use Rattle.paraid_rack.specs.Slots.{vacant_slot};
    ghost use Rattle.paraid_memrack.specs.Lists.{noted_in};
    ghost use Rattle.paraid_memrack.specs.Stop.{IsPicked};
    ghost use Rattle.paraid_memrack.specs.Tells.{no_beginning};
    ghost use Rattle.paraid_memrack.specs.Rules.{rack_slot_count, slots_of, told_of, rules_of, listed_calls, fails_next, Notes, no_disks, start_of, before_calls, first_slot};

    /// A rack of `slots` absent slots, whose calls fail as `plan` says.
    ///
    /// An attach of more than `room` blocks fails, and so does one that finds no memory. At most
    /// `calls` calls are listed. All memory but that for the blocks of a disk is taken here.
    pub fn new(
        alloc: Global,
        slots: u8,
        room: u32,
        calls: u32,
        plan: Vec<Planned>,
    ) -> Result<Self, NoMemory>
        requires { slots ≤ 8 }
        ensures slots { IfOk result (λ rack. rack_slot_count rack ≡ slots) }
        ensures absent { IfOk result (λ rack. (d : ℕ) → slots_of rack d ≡ vacant_slot) }
        ensures told { IfOk result (λ rack. told_of rack ≡ Some (no_disks slots)) }
        ensures listed { IfOk result (λ rack. listed_calls rack ≡ []) }
        ensures rules { IfOk result (λ rack. rules_of rack
            ≡ record { plan = plan.items; most = calls; room = room }) }
    {
        let start = absent_start(alloc, slots)?;
        let log = Log::new(alloc, start, calls, plan)?;
        let slots = absent_slots(alloc, slots)?;
        Ok(MemRack {
            alloc,
            room,
            slots,
            log,
        })
    }

    /// A rack as a stop before the listed call number `moment` leaves it, before any call on it.
    ///
    /// `pick` says what each loose block holds. The new rack has as many slots and the same room,
    /// no fault, and its own plan and number of calls. Calls that were made on a full list are left
    /// out.
    pub fn stopped(
        &self,
        alloc: Global,
        moment: u32,
        pick: Pick,
        calls: u32,
        plan: Vec<Planned>,
    ) -> Result<Self, NoMemory>
        requires { moment ≤ length (listed_calls self.now) }
        // It begins as an image at that moment, in all that exists.
        ensures image { IfOk result (λ rack. (t : Trail) → told_of self.now ≡ Some t
            → (i : Disks) × IsImage (disks t moment) i × IsAlike i (initial (start_of rack))) }
        ensures picked { IfOk result (λ rack. (t : Trail) → told_of self.now ≡ Some t
            → IsPicked pick t moment (initial (start_of rack))) }
        ensures told { IfOk result (λ rack. told_of rack ≡ Some (before_calls (start_of rack))) }
        ensures slot { IfOk result (λ rack. (d : ℕ)
            → slots_of rack d ≡ first_slot (start_of rack) d) }
        ensures slots { IfOk result (λ rack. rack_slot_count rack ≡ rack_slot_count self.now) }
        ensures listed { IfOk result (λ rack. listed_calls rack ≡ []) }
        ensures rules { IfOk result (λ rack. rules_of rack
            ≡ record { plan = plan.items; most = calls; room = (rules_of self.now).room }) }
    {
        let past = self.log.slots_at(alloc, moment)?;
        let start = left(alloc, &past, pick)?;
        let slots = first_slots(alloc, &start)?;
        let log = Log::new(alloc, start, calls, plan)?;
        Ok(MemRack {
            alloc,
            room: self.room,
            slots,
            log,
        })
    }

    /// The disk of a slot is lost before any call was made: the slot is absent from the start on.
    pub fn lose(&mut self, disk: DiskNo)
        requires exists { disk < rack_slot_count self.old }
        requires tells { IsSome (told_of self.old) }
        requires unused { listed_calls self.old ≡ [] }
        ensures start { start_of self.new ≡ slice_set (start_of self.old) disk no_beginning }
        ensures lost { IsAlike (lose disk (initial (start_of self.old)))
            (initial (start_of self.new)) }
        ensures told { told_of self.new ≡ Some (before_calls (start_of self.new)) }
        ensures slot { slots_of self.new disk
            ≡ record (slots_of self.old disk) { power = Absent; size = 0 } }
        ensures others { (d : ℕ) → d ≢ disk → slots_of self.new d ≡ slots_of self.old d }
        ensures slots { rack_slot_count self.new ≡ rack_slot_count self.old }
        ensures listed { listed_calls self.new ≡ [] }
        ensures rules { rules_of self.new ≡ rules_of self.old }
    {
        self.log.lose(self.alloc, disk);
        remove(&mut self.slots, self.alloc, disk);
    }

    /// A list that tells what this rack tells, before any call, to note the calls above it.
    pub fn list(&self, alloc: Global) -> Result<CallList, NoMemory>
        requires unused { listed_calls self.now ≡ [] }
        ensures { IfOk result (λ list. noted_in list ≡ told_of self.now) }
    {
        let start = starts_of(alloc, &self.log.start)?;
        Ok(CallList {
            tells: self.log.tells,
            start,
            calls: Vec::new(alloc),
        })
    }

    /// The number of calls that are listed.
    pub fn calls(&self) -> u32
        ensures value { result ≡ length (listed_calls self.now) }
        ensures told { (t : Trail) → told_of self.now ≡ Some t → t.calls ≡ listed_calls self.now }
    {
        self.log.calls.len() as u32
    }

    /// All calls, while each of them is listed and so told.
    pub fn told_calls(&self) -> Option<&[Call]>
        ensures { IfSome result (λ calls. (t : Trail) × (told_of self.now ≡ Some t)
            × (t.calls ≡ calls.now)) }
    {
        if self.log.tells {
            Some(&self.log.calls)
        } else {
            None
        }
    }

    /// A listed call, by its number from 0.
    pub fn call(&self, m: u32) -> &Call
        requires { m < length (listed_calls self.now) }
        ensures { slice_get (listed_calls self.now) m ≡ Some result.now }
    {
        &self.log.calls[m as usize]
    }

    /// A block as a read would give it. No call is made.
    pub fn block(&self, disk: DiskNo, place: Place) -> &Block
        requires exists { disk < rack_slot_count self.now }
        requires within { place < (slots_of self.now disk).size }
        ensures { (t : Trail) → told_of self.now ≡ Some t
            → result.now ≡ (now t).block disk place }
    {
        &self.slots[disk as usize].blocks[place as usize]
    }

    // A call on this disk fails, and leaves it so unsynced.
    fn fail(&mut self, disk: DiskNo, call: Call, dirt: bool)
        requires exists { disk < rack_slot_count self.old }
        requires on { disk_of call ≡ disk }
        requires failed { is_done call ≡ false }
        requires dirt { dirt ≡ dirt_after call (slots_of self.old disk).unsynced }
        requires lawful { (t : Trail) → told_of self.old ≡ Some t → IsLawful (now t) call }
        ensures slots { rack_slot_count self.new ≡ rack_slot_count self.old }
        ensures slot { (leaves : Slot)
            → ChangesOneSlot (slots_of self.old) (slots_of self.new) disk leaves dirt false }
        ensures told { GrowsByCall (told_of self.old) (told_of self.new) call }
        ensures notes { Notes self.old self.new call }
    {
        self.log.note(disk, call);
        fail(&mut self.slots, self.alloc, disk, dirt);
    }

    // The blocks of a fresh disk, unless the next call is to fail.
    fn fresh(&self, disk: DiskNo, size: u32) -> Result<Vec<Block>, Failed>
        requires { disk < rack_slot_count self.now }
        ensures zeros { IfOk result (λ blocks. blocks.items ≡ replicate size zero_block) }
        ensures planned { fails_next self.now disk ≡ true → is_ok result ≡ false }
        ensures large { (rules_of self.now).room < size → is_ok result ≡ false }
    {
        if self.log.is_planned(disk) || self.room < size {
            return Err(Failed);
        }
        let Ok(blocks) = Block::zeros(self.alloc, size) else {
            return Err(Failed);
        };
        Ok(blocks)
    }
}

// No slot has a disk.
fn absent_start(alloc: Global, count: u8) -> Result<Vec<Start>, NoMemory>
    ensures { IfOk result (λ start. map beginning_of start.items
        ≡ replicate count (record { power = Absent; blocks = [] })) }
{
    let Ok(mut start) = Vec::with_capacity(alloc, count as usize) else {
        return Err(NoMemory);
    };
    for _i in 0..count {
        start.push_reserved(Start {
            power: Power::Absent,
            blocks: Vec::new(alloc),
        });
    }
    Ok(start)
}

impl Rack for MemRack {
    ghost use Rattle.paraid_memrack.specs.Rules.{rack_slot_count, slots_of, told_of, rules_of, fails_next, Notes};
    ghost use Rattle.paraid_memrack.specs.Laws.{agrees_of};

    ghost slot_count = { rack_slot_count };

    ghost slot = { slots_of };

    ghost told = { told_of };

    ghost slots_hold = { λ rack. rack.sound };

    ghost agrees = { λ rack t is.
        agrees_of (now t) (full_slot_at rack.slots.items) (rack.keeps t is) };

    ghost lawful = { λ rack t is. rack.lawful t is };

    fn slots(&self) -> u8 {
        self.slots.len() as u8
    }

    fn size(&self, disk: DiskNo) -> u32 {
        self.slots[disk as usize].blocks.len() as u32
    }

    fn power(&self, disk: DiskNo) -> Power {
        self.slots[disk as usize].power
    }

    fn unsynced(&self, disk: DiskNo) -> bool {
        self.slots[disk as usize].unsynced
    }

    fn read(&mut self, disk: DiskNo, place: Place, into: &mut Block) -> Result<(), Failed>
        requires exists { disk < rack_slot_count self.old }
        requires spinning { (slots_of self.old disk).power ≡ Power.Spinning }
        requires within { place < (slots_of self.old disk).size }
        ensures slots { rack_slot_count self.new ≡ rack_slot_count self.old }
        ensures slot { ChangesOneSlot (slots_of self.old) (slots_of self.new) disk
            (slots_of self.old disk) (slots_of self.old disk).unsynced (is_ok result) }
        ensures told { GrowsByCall (told_of self.old) (told_of self.new)
            (Call.Read disk place (is_ok result)) }
        ensures bytes { OnOk result ((t : Trail) → told_of self.old ≡ Some t
            → into.new ≡ (now t).block disk place) }
        // It fails exactly where the plan names it.
        ensures planned { is_ok result ≡ not (fails_next self.old disk) }
        ensures notes { Notes self.old self.new (Call.Read disk place (is_ok result)) }
    {
        if self.log.is_planned(disk) {
            let dirt = self.unsynced(disk);
            self.fail(
                disk,
                Call::Read {
                    disk,
                    place,
                    done: false,
                },
                dirt,
            );
            return Err(Failed);
        }
        self.log.note(
            disk,
            Call::Read {
                disk,
                place,
                done: true,
            },
        );
        into.copy_from(&self.slots[disk as usize].blocks[place as usize]);
        Ok(())
    }

    fn write(&mut self, disk: DiskNo, place: Place, block: &Block) -> Result<(), Failed>
        requires exists { disk < rack_slot_count self.old }
        requires spinning { (slots_of self.old disk).power ≡ Power.Spinning }
        requires within { place < (slots_of self.old disk).size }
        ensures slots { rack_slot_count self.new ≡ rack_slot_count self.old }
        ensures slot { ChangesOneSlot (slots_of self.old) (slots_of self.new) disk
            (record (slots_of self.old disk) { unsynced = true }) true (is_ok result) }
        ensures told { GrowsByCall (told_of self.old) (told_of self.new)
            (Call.Write disk place block.now (is_ok result)) }
        // It fails exactly where the plan names it.
        ensures planned { is_ok result ≡ not (fails_next self.old disk) }
        ensures notes { Notes self.old self.new (Call.Write disk place block.now (is_ok result)) }
    {
        let bytes = block.copy();
        if self.log.is_planned(disk) {
            self.fail(
                disk,
                Call::Write {
                    disk,
                    place,
                    bytes,
                    done: false,
                },
                true,
            );
            return Err(Failed);
        }
        self.log.note(
            disk,
            Call::Write {
                disk,
                place,
                bytes,
                done: true,
            },
        );
        put(&mut self.slots, disk, place, block);
        Ok(())
    }

    fn sync(&mut self, disk: DiskNo) -> Result<(), Failed>
        requires exists { disk < rack_slot_count self.old }
        requires spinning { (slots_of self.old disk).power ≡ Power.Spinning }
        ensures slots { rack_slot_count self.new ≡ rack_slot_count self.old }
        ensures slot { ChangesOneSlot (slots_of self.old) (slots_of self.new) disk
            (record (slots_of self.old disk) { unsynced = false })
            (slots_of self.old disk).unsynced (is_ok result) }
        ensures told { GrowsByCall (told_of self.old) (told_of self.new)
            (Call.Sync disk (is_ok result)) }
        // It fails exactly where the plan names it.
        ensures planned { is_ok result ≡ not (fails_next self.old disk) }
        ensures notes { Notes self.old self.new (Call.Sync disk (is_ok result)) }
    {
        if self.log.is_planned(disk) {
            let dirt = self.unsynced(disk);
            self.fail(disk, Call::Sync { disk, done: false }, dirt);
            return Err(Failed);
        }
        self.log.note(disk, Call::Sync { disk, done: true });
        mark_synced(&mut self.slots, disk);
        Ok(())
    }

    fn park(&mut self, disk: DiskNo) -> Result<(), Failed>
        requires exists { disk < rack_slot_count self.old }
        requires spinning { (slots_of self.old disk).power ≡ Power.Spinning }
        requires synced { (slots_of self.old disk).unsynced ≡ false }
        ensures slots { rack_slot_count self.new ≡ rack_slot_count self.old }
        ensures slot { ChangesOneSlot (slots_of self.old) (slots_of self.new) disk
            (record (slots_of self.old disk) { power = Power.Parked }) false (is_ok result) }
        ensures told { GrowsByCall (told_of self.old) (told_of self.new)
            (Call.Park disk (is_ok result)) }
        // It fails exactly where the plan names it.
        ensures planned { is_ok result ≡ not (fails_next self.old disk) }
        ensures notes { Notes self.old self.new (Call.Park disk (is_ok result)) }
    {
        if self.log.is_planned(disk) {
            self.fail(disk, Call::Park { disk, done: false }, false);
            return Err(Failed);
        }
        self.log.note(disk, Call::Park { disk, done: true });
        turn(&mut self.slots, disk, Power::Parked);
        Ok(())
    }

    fn spin_up(&mut self, disk: DiskNo) -> Result<(), Failed>
        requires exists { disk < rack_slot_count self.old }
        requires parked { (slots_of self.old disk).power ≡ Power.Parked }
        ensures slots { rack_slot_count self.new ≡ rack_slot_count self.old }
        ensures slot { ChangesOneSlot (slots_of self.old) (slots_of self.new) disk
            (record (slots_of self.old disk) { power = Power.Spinning }) false (is_ok result) }
        ensures told { GrowsByCall (told_of self.old) (told_of self.new)
            (Call.SpinUp disk (is_ok result)) }
        // It fails exactly where the plan names it.
        ensures planned { is_ok result ≡ not (fails_next self.old disk) }
        ensures notes { Notes self.old self.new (Call.SpinUp disk (is_ok result)) }
    {
        if self.log.is_planned(disk) {
            self.fail(disk, Call::SpinUp { disk, done: false }, false);
            return Err(Failed);
        }
        self.log.note(disk, Call::SpinUp { disk, done: true });
        turn(&mut self.slots, disk, Power::Spinning);
        Ok(())
    }

    fn attach(&mut self, disk: DiskNo, size: u32) -> Result<(), Failed>
        requires exists { disk < rack_slot_count self.old }
        ensures slots { rack_slot_count self.new ≡ rack_slot_count self.old }
        ensures slot { ChangesOneSlot (slots_of self.old) (slots_of self.new) disk
            (record (slots_of self.old disk)
            { power = Power.Spinning; size = size; unsynced = false })
            (slots_of self.old disk).unsynced (is_ok result) }
        ensures told { GrowsByCall (told_of self.old) (told_of self.new)
            (Call.Attach disk size (is_ok result)) }
        // It fails where the plan names it or it is larger than the room, and for want of memory.
        ensures planned { fails_next self.old disk ≡ true → is_ok result ≡ false }
        ensures large { (rules_of self.old).room < size → is_ok result ≡ false }
        ensures notes { Notes self.old self.new (Call.Attach disk size (is_ok result)) }
    {
        let Ok(blocks) = self.fresh(disk, size) else {
            let dirt = self.unsynced(disk);
            self.fail(
                disk,
                Call::Attach {
                    disk,
                    size,
                    done: false,
                },
                dirt,
            );
            return Err(Failed);
        };
        self.log.note(
            disk,
            Call::Attach {
                disk,
                size,
                done: true,
            },
        );
        fill(&mut self.slots, disk, blocks);
        Ok(())
    }
}

// It writes blocks one after the other, and lists a call for each.
impl BulkRack for MemRack {}
