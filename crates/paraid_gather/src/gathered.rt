//! The rack above, whose calls are those of the rack below but for its writes.
ghost use Rattle.std.specs.Prelude.{◌≡◌, ℕ, length, IfOk};
ghost use Rattle.paraid_gather.specs.Stands.{StandsWhereTold, StandsWhereTold-prop};
ghost use Rattle.paraid_gather.specs.Waiting.{AllFit, none_waits, waiting_at};

use crate::bulk::BulkRack;
use crate::calls;
use crate::noted::{Noted, note_out, note_write};
use crate::run::Run;
use paraid_base::{Block, DiskNo, Failed, NoMemory, Place};
use paraid_rack::{Call, MOST_SLOTS, Power, Rack};
use std::alloc::Global;

/// The most disks that a rack has.
const SLOTS: usize = MOST_SLOTS as usize;

/// A rack that gathers what is written to the one that it owns.
///
/// It tells the calls that were noted in its log, where the rack below tells its own. Each call's
/// clause `above` says what it does to the disks as the caller sees them, and that a stop at any
/// moment of it leaves an image of these, as they were before the call or as they are after it. A
/// write of what waits that fails is a failure of the call that wanted it written.
#[derive(Drop)]
pub struct Gathered<R: BulkRack, L: Noted> {
    rack: R,
    runs: Vec<Run>,
    log: L,
    ghost eight: { length runs.items ≡ 8 },
    ghost fits: { AllFit (R.slot rack) (waiting_at runs.items) },
    pub ghost stands: { StandsWhereTold (R.told rack)
        (L.noted log) (R.slot rack) (waiting_at runs.items) } by { StandsWhereTold-prop
            (R.told rack) (L.noted log) (R.slot rack) (waiting_at runs.items) },
}

/// The rack below, in which all is written, and the log.
#[derive(Drop)]
pub struct Finished<R, L> {
    pub rack: R,
    pub log: L,
}

impl<R: BulkRack + Drop, L: Noted + Drop> Gathered<R, L> {
    ghost use Rattle.std.specs.Prelude.{◌≢◌, ◌<◌, Some, [], true, false, is_ok};
    ghost use Rattle.paraid_rack.specs.Slots.{ChangesOneSlot};
    ghost use Rattle.paraid_rack.specs.Disks.{Disks};
    ghost use Rattle.paraid_rack.specs.Trail.{Trail, now};
    ghost use Rattle.paraid_gather.specs.Above.{Follows, IsAbove, TellsOut, slots_above, told_above};
    ghost use Rattle.paraid_gather.specs.Bulk.{left_by};
    ghost use Rattle.paraid_gather.specs.Finish.{EndsGathered, NotesLost, WritesSlotOut, WritesWhatWaits, lost_at, lost_below};
    ghost use Rattle.paraid_gather.specs.Gathering.{IsGathered};
    ghost use Rattle.paraid_gather.specs.PowerCalls.{PowersAs};
    ghost use Rattle.paraid_rack.specs.Told.{Ran};
    ghost use Rattle.paraid_gather.specs.Gathers.{log_of, rack_below, waiting_in};
    ghost use Rattle.paraid_gather.specs.Waiting.{waits};

    /// Takes over a rack, for whose disks nothing waits. It takes the memory for what may wait. The
    /// log begins with the record that the rack has.
    pub fn new(alloc: Global, rack: R, log: L) -> Result<Gathered<R, L>, NoMemory>
        requires begun { (t : Trail) → L.noted log ≡ Some t → R.told rack ≡ Some t }
        ensures rack { IfOk result (λ gathered. rack_below gathered ≡ rack) }
        ensures log { IfOk result (λ gathered. log_of gathered ≡ log) }
        ensures none { IfOk result (λ gathered. (d : ℕ) → waiting_in gathered d ≡ none_waits) }
        // The disks are as the rack has them.
        ensures above { IfOk result (λ gathered. (t : Trail) → R.told rack ≡ Some t
            → IsAbove (now t) (waiting_in gathered) (now t)) }
    {
        let runs = no_runs(alloc)?;
        Ok(Gathered { rack, runs, log })
    }

    /// The log of its calls.
    pub fn log(&self) -> &L
        ensures { result.now ≡ log_of self.now }
    {
        &self.log
    }

    /// Writes what waits for a disk, so that nothing waits for it any more. The disks stay as the
    /// caller sees them, or this one is lost.
    pub fn write_out(&mut self, disk: DiskNo) -> Result<(), Failed>
        requires exists { disk < R.slot_count (rack_below self.old) }
        requires spinning { (R.slot (rack_below self.old) disk).power ≡ Power.Spinning }
        ensures slots { R.slot_count (rack_below self.new) ≡ R.slot_count (rack_below self.old) }
        ensures slot { ChangesOneSlot
            (slots_above (R.slot (rack_below self.old)) (waiting_in self.old))
            (slots_above (R.slot (rack_below self.new)) (waiting_in self.new)) disk
            (slots_above (R.slot (rack_below self.old)) (waiting_in self.old) disk) (slots_above
            (R.slot (rack_below self.old)) (waiting_in self.old) disk).unsynced (is_ok result) }
        ensures above { (s : Disks)
            → Follows (R.told (rack_below self.old)) (R.told (rack_below self.new))
            (waiting_in self.old) (waiting_in self.new) s (left_by (is_ok result) disk s) }
        // No call is noted where it is done, and else a sync that has failed.
        ensures told { TellsOut (is_ok result) disk
            (told_above (R.told (rack_below self.old)) (L.noted (log_of self.old)))
            (told_above (R.told (rack_below self.new)) (L.noted (log_of self.new))) }
        ensures noted { TellsOut (is_ok result) disk (L.noted (log_of self.old))
            (L.noted (log_of self.new)) }
        // No disk is turned on or off.
        ensures power_calls { Ran
            (R.told (rack_below self.old)) (R.told (rack_below self.new)) (PowersAs []) }
        ensures empty { is_ok result ≡ true → waits (waiting_in self.new disk) ≡ false }
        ensures others { (d : ℕ) → d ≢ disk → waiting_in self.new d ≡ waiting_in self.old d }
        // It fails only where a block waits. The slots below become as they were above.
        ensures waited { is_ok result ≡ false → waits (waiting_in self.old disk) ≡ true }
        ensures below { ChangesOneSlot (R.slot (rack_below self.old)) (R.slot (rack_below self.new))
            disk (slots_above (R.slot (rack_below self.old)) (waiting_in self.old) disk)
            (slots_above (R.slot (rack_below self.old)) (waiting_in self.old) disk).unsynced
            (is_ok result) }
        ensures log { is_ok result ≡ true → log_of self.new ≡ log_of self.old }
        ensures idle { waits (waiting_in self.old disk) ≡ false
            → rack_below self.new ≡ rack_below self.old }
    {
        let result = calls::write_out(&mut self.rack, &mut self.runs[disk as usize], disk);
        note_out(&mut self.log, disk, result.is_ok());
        result
    }

    // Writes out what waits for a disk, if that spins.
    fn settle(&mut self, disk: DiskNo)
        requires { disk < R.slot_count (rack_below self.old) }
        ensures slots { R.slot_count (rack_below self.new) ≡ R.slot_count (rack_below self.old) }
        ensures slot { WritesSlotOut (R.slot (rack_below self.old) disk) (waiting_in self.old disk)
            (R.slot (rack_below self.new) disk) }
        ensures other_slots { (d : ℕ) → d ≢ disk → R.slot (rack_below self.new) d
            ≡ R.slot (rack_below self.old) d }
        ensures log { NotesLost
            (lost_at disk (R.slot (rack_below self.old) disk) (R.slot (rack_below self.new) disk))
            (L.noted (log_of self.old)) (L.noted (log_of self.new)) }
        ensures below { Ran (R.told (rack_below self.old)) (R.told (rack_below self.new))
            (WritesWhatWaits (lost_at disk (R.slot (rack_below self.old) disk)
            (R.slot (rack_below self.new) disk)) (waiting_in self.old) (waiting_in self.new)) }
        ensures empty { (R.slot (rack_below self.new) disk).power ≡ Power.Spinning
            → waits (waiting_in self.new disk) ≡ false }
        ensures others { (d : ℕ) → d ≢ disk → waiting_in self.new d ≡ waiting_in self.old d }
        ensures idle { ((R.slot (rack_below self.old) disk).power ≡ Power.Spinning
            → waits (waiting_in self.old disk) ≡ false)
            → (rack_below self.new ≡ rack_below self.old) × (log_of self.new ≡ log_of self.old) }
    {
        if let Power::Spinning = self.rack.power(disk) {
            let _ = self.write_out(disk);
        }
    }

    /// Writes out all that waits, and gives the rack and the log back. Each disk is left as the
    /// caller saw it, but for one that is lost as what waits for it is written.
    pub fn finish(self) -> Finished<R, L>
        ensures slots { R.slot_count result.rack ≡ R.slot_count (rack_below self) }
        // Each disk is as the rack above had it, or it is lost, and then a block waited for it.
        ensures slot { (d : ℕ) → WritesSlotOut (R.slot (rack_below self) d) (waiting_in self d)
            (R.slot result.rack d) }
        // Of each disk that is lost a failed sync is noted, and nothing else.
        ensures log { NotesLost (lost_below (R.slot_count result.rack) (R.slot (rack_below self))
            (R.slot result.rack)) (L.noted (log_of self)) (L.noted result.log) }
        // All that waits is on the disks that are left. None is turned on or off.
        ensures below { Ran (R.told (rack_below self)) (R.told result.rack) (WritesWhatWaits
            (lost_below (R.slot_count result.rack) (R.slot (rack_below self)) (R.slot result.rack))
            (waiting_in self) (λ _. none_waits)) }
        ensures gathered { (below noted : Trail)
            → R.told result.rack ≡ Some below → L.noted result.log ≡ Some noted → EndsGathered
            (told_above (R.told (rack_below self)) (L.noted (log_of self))) below noted }
        // Where nothing waits for a disk that spins, nothing is called and nothing is noted.
        ensures idle { ((d : ℕ) → (R.slot (rack_below self) d).power ≡ Power.Spinning
            → waits (waiting_in self d) ≡ false)
            → (result.rack ≡ rack_below self) × (result.log ≡ log_of self) }
    {
        let mut gathered = self;
        for disk in 0..gathered.rack.slots() {
            gathered.settle(disk);
        }
        Finished {
            rack: gathered.rack,
            log: gathered.log,
        }
    }

    /// Gives the rack back. What still waits is dropped.
    pub fn into_rack(self) -> R
        ensures rack { result ≡ rack_below self }
        // Its record is that of the calls above, gathered.
        ensures gathered { (below above : Trail) → R.told result ≡ Some below
            → L.noted (log_of self) ≡ Some above → ∥ IsGathered below above ∥₁ }
    {
        self.rack
    }
}

// A run for each disk, in which no block waits.
fn no_runs(alloc: Global) -> Result<Vec<Run>, NoMemory>
    ensures length { IfOk result (λ runs. length runs.items ≡ 8) }
    ensures none { IfOk result (λ runs. (d : ℕ) → waiting_at runs.items d ≡ none_waits) }
{
    let Ok(mut runs) = Vec::with_capacity(alloc, SLOTS) else {
        return Err(NoMemory);
    };
    for _made in 0..SLOTS {
        runs.push_reserved(Run::new(alloc)?);
    }
    Ok(runs)
}

impl<R: BulkRack, L: Noted> Rack for Gathered<R, L> {
    ghost use Rattle.std.specs.Prelude.{◌<◌, true, false, Some, IsSome, OnOk, is_ok};
    ghost use Rattle.paraid_rack.specs.Slots.{ChangesOneSlot};
    ghost use Rattle.paraid_rack.specs.Told.{GrowsByCall};
    ghost use Rattle.paraid_rack.specs.Trail.{Trail, now};
    ghost use Rattle.paraid_rack.specs.Disks.{Disks, step};
    ghost use Rattle.paraid_gather.specs.Above.{Follows, IsAbove, slots_above, told_above};
    ghost use Rattle.paraid_gather.specs.Gathers.{log_of, rack_below, waiting_in};
    ghost use Rattle.paraid_gather.specs.Laws.{above_agrees, above_lawful, slots_above_hold};
    ghost use Rattle.paraid_gather.specs.Waiting.{Joins, waiting};

    ghost slot_count = { λ gathered. R.slot_count gathered.rack };

    ghost slot = { λ gathered.
        slots_above (R.slot gathered.rack) (waiting_at gathered.runs.items) };

    ghost told = { λ gathered. told_above (R.told gathered.rack) (L.noted gathered.log) };

    ghost slots_hold = { λ gathered. slots_above_hold
        (R.slot_count gathered.rack) (R.slot gathered.rack)
        (waiting_at gathered.runs.items) (R.slots_hold gathered.rack) gathered.fits };

    ghost agrees = { λ gathered. above_agrees (R.told gathered.rack) (L.noted gathered.log)
        (R.slot gathered.rack) (waiting_at gathered.runs.items) gathered.stands };

    ghost lawful = { λ gathered. above_lawful (R.told gathered.rack) (L.noted gathered.log)
        (R.slot gathered.rack) (waiting_at gathered.runs.items) gathered.stands };

    fn slots(&self) -> u8 {
        self.rack.slots()
    }

    fn size(&self, disk: DiskNo) -> u32 {
        self.rack.size(disk)
    }

    fn power(&self, disk: DiskNo) -> Power {
        self.rack.power(disk)
    }

    fn unsynced(&self, disk: DiskNo) -> bool {
        self.rack.unsynced(disk) || !self.runs[disk as usize].is_empty()
    }

    fn read(&mut self, disk: DiskNo, place: Place, into: &mut Block) -> Result<(), Failed>
        requires exists { disk < R.slot_count (rack_below self.old) }
        requires spinning { (slots_above
            (R.slot (rack_below self.old)) (waiting_in self.old) disk).power ≡ Power.Spinning }
        requires within { place
            < (slots_above (R.slot (rack_below self.old)) (waiting_in self.old) disk).size }
        ensures slots { R.slot_count (rack_below self.new) ≡ R.slot_count (rack_below self.old) }
        ensures slot { ChangesOneSlot
            (slots_above (R.slot (rack_below self.old)) (waiting_in self.old))
            (slots_above (R.slot (rack_below self.new)) (waiting_in self.new)) disk
            (slots_above (R.slot (rack_below self.old)) (waiting_in self.old) disk) (slots_above
            (R.slot (rack_below self.old)) (waiting_in self.old) disk).unsynced (is_ok result) }
        ensures told { GrowsByCall
            (told_above (R.told (rack_below self.old)) (L.noted (log_of self.old)))
            (told_above (R.told (rack_below self.new)) (L.noted (log_of self.new)))
            (Call.Read disk place (is_ok result)) }
        ensures bytes { OnOk result ((t : Trail)
            → told_above (R.told (rack_below self.old)) (L.noted (log_of self.old)) ≡ Some t
            → into.new ≡ (now t).block disk place) }
        ensures above { (s : Disks)
            → Follows (R.told (rack_below self.old)) (R.told (rack_below self.new)) (waiting_in
            self.old) (waiting_in self.new) s (step (Call.Read disk place (is_ok result)) s) }
        ensures bytes_above { is_ok result ≡ true → (t : Trail) (s : Disks)
            → R.told (rack_below self.old) ≡ Some t → IsAbove (now t) (waiting_in self.old) s
            → into.new ≡ s.block disk place }
        // Where the block waits, nothing is called.
        ensures held { IsSome (waiting (waiting_in self.old disk) place)
            → rack_below self.new ≡ rack_below self.old }
    {
        let result = calls::read(&mut self.rack, &self.runs[disk as usize], disk, place, into);
        let done = result.is_ok();
        self.log.note(Call::Read { disk, place, done });
        result
    }

    fn write(&mut self, disk: DiskNo, place: Place, block: &Block) -> Result<(), Failed>
        requires exists { disk < R.slot_count (rack_below self.old) }
        requires spinning { (slots_above
            (R.slot (rack_below self.old)) (waiting_in self.old) disk).power ≡ Power.Spinning }
        requires within { place
            < (slots_above (R.slot (rack_below self.old)) (waiting_in self.old) disk).size }
        ensures slots { R.slot_count (rack_below self.new) ≡ R.slot_count (rack_below self.old) }
        ensures slot { ChangesOneSlot
            (slots_above (R.slot (rack_below self.old)) (waiting_in self.old))
            (slots_above (R.slot (rack_below self.new)) (waiting_in self.new)) disk
            (record (slots_above (R.slot (rack_below self.old))
            (waiting_in self.old) disk) { unsynced = true }) true (is_ok result) }
        ensures told { GrowsByCall
            (told_above (R.told (rack_below self.old)) (L.noted (log_of self.old)))
            (told_above (R.told (rack_below self.new)) (L.noted (log_of self.new)))
            (Call.Write disk place block.now (is_ok result)) }
        ensures above { (s : Disks) → Follows
            (R.told (rack_below self.old)) (R.told (rack_below self.new)) (waiting_in self.old)
            (waiting_in self.new) s (step (Call.Write disk place block.now (is_ok result)) s) }
        // A block that joins those that wait is not written yet: nothing is called.
        ensures joined { Joins (waiting_in self.old disk) place
            → rack_below self.new ≡ rack_below self.old }
    {
        let result = calls::write(
            &mut self.rack,
            &mut self.runs[disk as usize],
            disk,
            place,
            block,
        );
        note_write(&mut self.log, disk, place, block, result.is_ok());
        result
    }

    fn sync(&mut self, disk: DiskNo) -> Result<(), Failed>
        requires exists { disk < R.slot_count (rack_below self.old) }
        requires spinning { (slots_above
            (R.slot (rack_below self.old)) (waiting_in self.old) disk).power ≡ Power.Spinning }
        ensures slots { R.slot_count (rack_below self.new) ≡ R.slot_count (rack_below self.old) }
        ensures slot { ChangesOneSlot
            (slots_above (R.slot (rack_below self.old)) (waiting_in self.old))
            (slots_above (R.slot (rack_below self.new)) (waiting_in self.new)) disk
            (record (slots_above (R.slot (rack_below self.old))
            (waiting_in self.old) disk) { unsynced = false }) (slots_above
            (R.slot (rack_below self.old)) (waiting_in self.old) disk).unsynced (is_ok result) }
        ensures told { GrowsByCall
            (told_above (R.told (rack_below self.old)) (L.noted (log_of self.old)))
            (told_above (R.told (rack_below self.new)) (L.noted (log_of self.new)))
            (Call.Sync disk (is_ok result)) }
        ensures above { (s : Disks)
            → Follows (R.told (rack_below self.old)) (R.told (rack_below self.new))
            (waiting_in self.old) (waiting_in self.new) s (step (Call.Sync disk (is_ok result)) s) }
    {
        let result = calls::sync(&mut self.rack, &mut self.runs[disk as usize], disk);
        let done = result.is_ok();
        self.log.note(Call::Sync { disk, done });
        result
    }

    fn park(&mut self, disk: DiskNo) -> Result<(), Failed>
        requires exists { disk < R.slot_count (rack_below self.old) }
        requires spinning { (slots_above
            (R.slot (rack_below self.old)) (waiting_in self.old) disk).power ≡ Power.Spinning }
        requires synced { (slots_above
            (R.slot (rack_below self.old)) (waiting_in self.old) disk).unsynced ≡ false }
        ensures slots { R.slot_count (rack_below self.new) ≡ R.slot_count (rack_below self.old) }
        ensures slot { ChangesOneSlot
            (slots_above (R.slot (rack_below self.old)) (waiting_in self.old))
            (slots_above (R.slot (rack_below self.new)) (waiting_in self.new)) disk
            (record (slots_above (R.slot (rack_below self.old))
            (waiting_in self.old) disk) { power = Power.Parked }) false (is_ok result) }
        ensures told { GrowsByCall
            (told_above (R.told (rack_below self.old)) (L.noted (log_of self.old)))
            (told_above (R.told (rack_below self.new)) (L.noted (log_of self.new)))
            (Call.Park disk (is_ok result)) }
        ensures above { (s : Disks)
            → Follows (R.told (rack_below self.old)) (R.told (rack_below self.new))
            (waiting_in self.old) (waiting_in self.new) s (step (Call.Park disk (is_ok result)) s) }
    {
        let result = self.rack.park(disk);
        let done = result.is_ok();
        self.log.note(Call::Park { disk, done });
        result
    }

    fn spin_up(&mut self, disk: DiskNo) -> Result<(), Failed>
        requires exists { disk < R.slot_count (rack_below self.old) }
        requires parked { (slots_above
            (R.slot (rack_below self.old)) (waiting_in self.old) disk).power ≡ Power.Parked }
        ensures slots { R.slot_count (rack_below self.new) ≡ R.slot_count (rack_below self.old) }
        ensures slot { ChangesOneSlot
            (slots_above (R.slot (rack_below self.old)) (waiting_in self.old))
            (slots_above (R.slot (rack_below self.new)) (waiting_in self.new)) disk
            (record (slots_above (R.slot (rack_below self.old))
            (waiting_in self.old) disk) { power = Power.Spinning }) false (is_ok result) }
        ensures told { GrowsByCall
            (told_above (R.told (rack_below self.old)) (L.noted (log_of self.old)))
            (told_above (R.told (rack_below self.new)) (L.noted (log_of self.new)))
            (Call.SpinUp disk (is_ok result)) }
        ensures above { (s : Disks)
            → Follows (R.told (rack_below self.old)) (R.told (rack_below self.new)) (waiting_in
            self.old) (waiting_in self.new) s (step (Call.SpinUp disk (is_ok result)) s) }
    {
        let result = self.rack.spin_up(disk);
        let done = result.is_ok();
        self.log.note(Call::SpinUp { disk, done });
        result
    }

    fn attach(&mut self, disk: DiskNo, size: u32) -> Result<(), Failed>
        requires exists { disk < R.slot_count (rack_below self.old) }
        ensures slots { R.slot_count (rack_below self.new) ≡ R.slot_count (rack_below self.old) }
        ensures slot { ChangesOneSlot
            (slots_above (R.slot (rack_below self.old)) (waiting_in self.old))
            (slots_above (R.slot (rack_below self.new)) (waiting_in self.new)) disk
            (record (slots_above (R.slot (rack_below self.old)) (waiting_in self.old)
            disk) { power = Power.Spinning; size = size; unsynced = false }) (slots_above
            (R.slot (rack_below self.old)) (waiting_in self.old) disk).unsynced (is_ok result) }
        ensures told { GrowsByCall
            (told_above (R.told (rack_below self.old)) (L.noted (log_of self.old)))
            (told_above (R.told (rack_below self.new)) (L.noted (log_of self.new)))
            (Call.Attach disk size (is_ok result)) }
        ensures above { (s : Disks)
            → Follows (R.told (rack_below self.old)) (R.told (rack_below self.new)) (waiting_in
            self.old) (waiting_in self.new) s (step (Call.Attach disk size (is_ok result)) s) }
    {
        let result = calls::attach(&mut self.rack, &mut self.runs[disk as usize], disk, size);
        let done = result.is_ok();
        self.log.note(Call::Attach { disk, size, done });
        result
    }
}
