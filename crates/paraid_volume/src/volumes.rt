//! Named volumes.
ghost use Rattle.std.specs.Prelude.{◌≡◌, ◌≤◌, ◌<◌, ◌^◌};
ghost use Rattle.paraid_volume.specs.TableBlocks.{in_table};
ghost use Rattle.paraid_volume.specs.Tables.{extent_count as count_of, extent_size as size_of, IsVolumeTable};

use crate::device::{make, read_table, write_table};
use crate::fault::{VolFault, VolRefused};
use crate::name::Name;
use crate::size::{extent_count, extent_size};
use crate::table::Table;
use paraid_base::{Block, BlockFault, BlockNo, Halt};
use paraid_blocks::Blocks;

/// Named volumes on a device of at least seven blocks. It takes no memory.
///
/// After a halt of the device each call gives the same halt.
#[derive(Drop)]
pub struct Volumes<B: Blocks> {
    blocks: B,
    table: Table,
    size: u32,
    extents: u32,
    halt: Option<Halt>,
    ghost large: { 7 ≤ B.block_count blocks },
    ghost fits: { B.block_count blocks < 2 ^ 32 },
    ghost sized: { size ≡ size_of (B.block_count blocks) },
    ghost counted: { extents ≡ count_of (B.block_count blocks) },
    ghost valid: { IsVolumeTable (B.block_count blocks) (in_table table) },
    ghost halted: { B.halted blocks ≡ halt },
}

impl<B: Blocks> Volumes<B> {
    ghost use Rattle.std.specs.Prelude.{ℕ, ◌+◌, ◌*◌, ◌++◌, ◌∷◌, [], length, IsTrue, IfOk, IfErr, IfSome, IfNone, OnOk, OnErr, Option, None};
    ghost use Rattle.paraid_base.specs.declared.event.Answer.TheVariants.{Flushed as FlushedAnswer};
    ghost use Rattle.paraid_base.specs.declared.event.Event.TheVariants.{Flush as FlushEvent};
    ghost use Rattle.paraid_base.specs.BlockAnswers.{Answers};
    ghost use Rattle.paraid_base.specs.History.{History, after_all};
    ghost use Rattle.paraid_volume.specs.Device.{DeviceGoesOn, DeviceHolds, SinceHistory, KeepsMore, IsReadEvent, IsWriteEvent, IsFlushEvent, IsReadOrWrite};
    ghost use Rattle.paraid_base.specs.Xor.{zero_block};
    ghost use Rattle.paraid_volume.specs.declared.fault.VolFault.TheVariants.{Already as AlreadyFault};
    ghost use Rattle.paraid_volume.specs.Laid.{AreChanges, IsWith, IsWithout};
    ghost use Rattle.paraid_volume.specs.TableCalls.{AreOfCreate, AreOfInit, AreRefusedReads, AreTableReads, IsTableWrite, KeepsThen, table_reads};
    ghost use Rattle.paraid_volume.specs.Faults.{CanCreate, IsPlaceFault, IsAdoptFault, IsInitFault, IsIdFault, IsCreateFault, IsLeastFree, IsHalt, IsServedBlock, vol_halt_in};
    ghost use Rattle.paraid_volume.specs.States.{VolumeState, ShowsVolumes, Adds, AddsNoVolume, Makes, IsPlace, with_volume, without_volume, with_block};
    ghost use Rattle.paraid_volume.specs.Tables.{IsLiveId, extents_owned, owner_in};
    ghost use Rattle.paraid_volume.specs.Lives.{BeginsLife, HasLived, LivesMore, VolLog, create as CreateCall, delete as DeleteCall, read as ReadCall, write as WriteCall, flush as FlushCall, made as Made, removed as Removed, value as Gave, wrote as Wrote, flushed as Flushed, refused as Refused};
    ghost use Rattle.paraid_volume.specs.NameValues.{IsNameOf, letter_of};
    ghost use Rattle.paraid_volume.specs.Values.{device_of, halted_of, volume_table, VolumesStandFor, KeepsRead, KeepsWrite};

    /// Takes a device that holds a table. It only reads.
    #[inline(never)]
    pub fn adopt(blocks: B) -> Result<Volumes<B>, VolRefused<B>>
        ensures refused { IfErr result (λ refused. IsAdoptFault (B.block_count blocks)
            (B.halted refused.blocks)
            ((h : History) → B.stands blocks h → IsTrue (B.tells refused.blocks)
            → IsVolumeTable (B.block_count blocks) (after_all h) → ⊥) refused.fault) }
        ensures went { IfOk result (λ volumes.
            DeviceGoesOn B.block_count B.halts B.halted B.tells blocks (device_of volumes)) }
        ensures went_refused { IfErr result (λ refused.
            DeviceGoesOn B.block_count B.halts B.halted B.tells blocks refused.blocks) }
        ensures grown { IfOk result (λ volumes.
            KeepsMore B.kept B.tells IsReadEvent blocks (device_of volumes)) }
        ensures grown_refused { IfErr result (λ refused.
            KeepsMore B.kept B.tells IsReadEvent blocks refused.blocks) }
        ensures stands_refused { IfErr result (λ refused. B.halted refused.blocks ≡ None
            → (from : SinceHistory B) (h : History) → DeviceHolds B.stands B.kept from blocks h
            → IsTrue (B.tells refused.blocks) → DeviceHolds B.stands B.kept from refused.blocks h) }
        ensures untouched { IfErr result (λ refused. B.block_count blocks < 7
            → refused.blocks ≡ blocks) }
        ensures ok { IfOk result (λ volumes. halted_of volumes ≡ None) }
        ensures stands { IfOk result (λ volumes. (from : SinceHistory B) (h : History)
            → DeviceHolds B.stands B.kept from blocks h → IsTrue (B.tells (device_of volumes))
            → VolumesStandFor (DeviceHolds B.stands B.kept from) volumes h) }
        ensures lived { IfOk result (λ volumes. (from : SinceHistory B) (h : History)
            → DeviceHolds B.stands B.kept from blocks h → IsTrue (B.tells (device_of volumes))
            → HasLived (VolumesStandFor (DeviceHolds B.stands B.kept from) volumes)
            (B.block_count blocks) (length h) []) }
        ensures reads { IfOk result (λ volumes. (first : B) (events : Answers)
            → B.kept first blocks events
            → B.kept first (device_of volumes) (events ++ table_reads (volume_table volumes) 6)) }
        ensures reads_refused { IfErr result (λ refused. KeepsThen B.kept
            (AreRefusedReads (B.block_count blocks) refused.fault) blocks refused.blocks) }
    {
        let mut blocks = blocks;
        let count = blocks.blocks();
        if count < 7 {
            let fault = VolFault::Small { blocks: count };
            return Err(VolRefused { fault, blocks });
        }
        let mut table = Table::zero();
        if let Err(halt) = read_table(&mut blocks, &mut table) {
            let fault = VolFault::Halt(halt);
            return Err(VolRefused { fault, blocks });
        }
        if !table.is_table(count) {
            let fault = VolFault::NotVolumes;
            return Err(VolRefused { fault, blocks });
        }
        Ok(Volumes {
            blocks,
            table,
            size: extent_size(count),
            extents: extent_count(count),
            halt: None,
        })
    }

    /// Makes a device hold an empty table, by one write. It refuses one that holds a table.
    #[inline(never)]
    pub fn init(blocks: B) -> Result<Volumes<B>, VolRefused<B>>
        ensures refused { IfErr result (λ refused. IsInitFault (B.block_count blocks)
            (B.halted refused.blocks)
            ((h : History) → B.stands blocks h → IsTrue (B.tells refused.blocks)
            → IsVolumeTable (B.block_count blocks) (after_all h)) refused.fault) }
        ensures taken { IfOk result (λ volumes. (h : History)
            → B.stands blocks h → IsTrue (B.tells (device_of volumes))
            → IsVolumeTable (B.block_count blocks) (after_all h) → ⊥) }
        ensures went { IfOk result (λ volumes.
            DeviceGoesOn B.block_count B.halts B.halted B.tells blocks (device_of volumes)) }
        ensures went_refused { IfErr result (λ refused.
            DeviceGoesOn B.block_count B.halts B.halted B.tells blocks refused.blocks) }
        ensures grown { IfOk result (λ volumes.
            KeepsMore B.kept B.tells IsReadOrWrite blocks (device_of volumes)) }
        ensures grown_refused { IfErr result (λ refused.
            KeepsMore B.kept B.tells IsReadOrWrite blocks refused.blocks) }
        ensures stands_refused { IfErr result (λ refused. B.halted refused.blocks ≡ None
            → (from : SinceHistory B) (h : History) → DeviceHolds B.stands B.kept from blocks h
            → IsTrue (B.tells refused.blocks) → DeviceHolds B.stands B.kept from refused.blocks h) }
        ensures untouched { IfErr result (λ refused. B.block_count blocks < 7
            → refused.blocks ≡ blocks) }
        ensures ok { IfOk result (λ volumes. halted_of volumes ≡ None) }
        ensures stands { IfOk result (λ volumes. (from : SinceHistory B) (h : History)
            → DeviceHolds B.stands B.kept from blocks h
            → IsTrue (B.tells (device_of volumes)) → AddsNoVolume
            (VolumesStandFor (DeviceHolds B.stands B.kept from) volumes) (B.block_count blocks) h) }
        ensures lived { IfOk result (λ volumes. (from : SinceHistory B) (h : History)
            → DeviceHolds B.stands B.kept from blocks h → IsTrue (B.tells (device_of volumes))
            → BeginsLife (VolumesStandFor (DeviceHolds B.stands B.kept from) volumes)
            (B.block_count blocks) (length h + 1)) }
        ensures empty { IfOk result (λ volumes. (k : ℕ)
            → 1 ≤ k → volume_table volumes k ≡ zero_block) }
        ensures events { IfOk result (λ volumes. KeepsThen B.kept
            (AreOfInit (B.block_count blocks) (volume_table volumes)) blocks (device_of volumes)) }
        ensures found { IfErr result (λ refused. refused.fault ≡ AlreadyFault
            → KeepsThen B.kept (AreTableReads (B.block_count blocks)) blocks refused.blocks) }
    {
        let mut blocks = blocks;
        let count = blocks.blocks();
        if count < 7 {
            let fault = VolFault::Small { blocks: count };
            return Err(VolRefused { fault, blocks });
        }
        let mut table = Table::zero();
        if let Err(halt) = read_table(&mut blocks, &mut table) {
            let fault = VolFault::Halt(halt);
            return Err(VolRefused { fault, blocks });
        }
        if table.is_table(count) {
            let fault = VolFault::Already;
            return Err(VolRefused { fault, blocks });
        }
        let table = Table::empty(count);
        if let Err(halt) = write_table(&mut blocks, &table.whole()) {
            let fault = VolFault::Halt(halt);
            return Err(VolRefused { fault, blocks });
        }
        Ok(Volumes {
            blocks,
            table,
            size: extent_size(count),
            extents: extent_count(count),
            halt: None,
        })
    }

    /// Gives the device back.
    pub fn finish(self) -> B
        ensures { result ≡ device_of self }
    {
        self.blocks
    }

    /// The number of free extents.
    pub fn free(&self) -> u32
        ensures { result ≡ extents_owned (owner_in (volume_table self.now)) 0
            (count_of (B.block_count (device_of self.now))) }
    {
        self.table.owned(0, self.extents)
    }

    // Where a block of a volume lies.
    fn place(&self, id: u8, block: u32) -> Result<BlockNo, VolFault>
        ensures fault { IfErr result (IsPlaceFault (B.block_count (device_of self.now))
            (volume_table self.now) (halted_of self.now) id block) }
        ensures halt { vol_halt_in result ≡ halted_of self.now }
        ensures ok { IfOk result
            (IsPlace (B.block_count (device_of self.now)) (volume_table self.now) id block) }
        ensures below { IfOk result (λ place. place < B.block_count (device_of self.now)) }
    {
        if let Some(halt) = self.halt {
            return Err(VolFault::Halt(halt));
        }
        if !self.table.is_live(id) {
            return Err(VolFault::NoVolume { id });
        }
        match self.table.extent(id, block / self.size, self.extents) {
            None => Err(VolFault::NoBlock { block }),
            Some(extent) => Ok(6 + extent * self.size + block % self.size),
        }
    }

    /// Reads a block of a volume. After a halt in this call `into` holds any bytes.
    pub fn read(&mut self, id: u8, block: u32, into: &mut Block) -> Result<(), VolFault>
        ensures fault { IfErr result (IsPlaceFault (B.block_count (device_of self.old))
            (volume_table self.old) (halted_of self.new) id block) }
        ensures served { OnOk result (IsServedBlock (B.block_count (device_of self.old))
            (volume_table self.old) id block) }
        ensures halt { halted_of self.new ≡ vol_halt_in result }
        ensures went { DeviceGoesOn B.block_count B.halts B.halted B.tells (device_of self.old)
            (device_of self.new) }
        ensures grown { KeepsMore B.kept B.tells IsReadEvent
            (device_of self.old) (device_of self.new) }
        ensures table { volume_table self.new ≡ volume_table self.old }
        ensures stands { halted_of self.new ≡ None → (from : SinceHistory B) (h : History)
            → VolumesStandFor (DeviceHolds B.stands B.kept from) self.old h
            → IsTrue (B.tells (device_of self.new))
            → VolumesStandFor (DeviceHolds B.stands B.kept from) self.new h }
        ensures value { OnOk result ((h : History) (s : VolumeState)
            → VolumesStandFor B.stands self.old h
            → ShowsVolumes (B.block_count (device_of self.old)) (after_all h) s
            → IsTrue (B.tells (device_of self.new)) → into.new ≡ s.block id block) }
        ensures event { OnOk result ((first : B) (events : Answers)
            → B.kept first (device_of self.old) events
            → KeepsRead (B.kept first (device_of self.new)) events
            (B.block_count (device_of self.old)) (volume_table self.old) id block into.new) }
        ensures untouched { OnErr result (halted_of self.new ≡ halted_of self.old
            → (device_of self.new ≡ device_of self.old) × (into.new ≡ into.old)) }
        ensures lived { OnOk result ((from : SinceHistory B) (start : ℕ) (log : VolLog)
            → (lived : HasLived (VolumesStandFor (DeviceHolds B.stands B.kept from) self.old)
            (B.block_count (device_of self.old)) start log) → IsTrue (B.tells (device_of self.new))
            → LivesMore (VolumesStandFor (DeviceHolds B.stands B.kept from) self.old)
            (VolumesStandFor (DeviceHolds B.stands B.kept from) self.new) (B.block_count
            (device_of self.old)) start log lived (ReadCall id block) (Gave into.new)) }
        ensures lived_refused { IfErr result (λ fault. halted_of self.new ≡ None
            → (from : SinceHistory B) (start : ℕ) (log : VolLog)
            → (lived : HasLived (VolumesStandFor (DeviceHolds B.stands B.kept from) self.old)
            (B.block_count (device_of self.old)) start log) → IsTrue (B.tells (device_of self.new))
            → LivesMore (VolumesStandFor (DeviceHolds B.stands B.kept from) self.old)
            (VolumesStandFor (DeviceHolds B.stands B.kept from) self.new) (B.block_count
            (device_of self.old)) start log lived (ReadCall id block) (Refused fault)) }
    {
        let place = self.place(id, block)?;
        match self.blocks.read(place, into) {
            Ok(()) => Ok(()),
            Err(BlockFault::Halt(halt)) => {
                self.halt = Some(halt);
                Err(VolFault::Halt(halt))
            }
            Err(BlockFault::NoBlock { .. }) => unreachable!(),
        }
    }

    /// Writes a block of a volume.
    pub fn write(&mut self, id: u8, block: u32, bytes: &Block) -> Result<(), VolFault>
        ensures fault { IfErr result (IsPlaceFault (B.block_count (device_of self.old))
            (volume_table self.old) (halted_of self.new) id block) }
        ensures served { OnOk result (IsServedBlock (B.block_count (device_of self.old))
            (volume_table self.old) id block) }
        ensures halt { halted_of self.new ≡ vol_halt_in result }
        ensures went { DeviceGoesOn B.block_count B.halts B.halted B.tells (device_of self.old)
            (device_of self.new) }
        ensures grown { KeepsMore B.kept B.tells IsWriteEvent
            (device_of self.old) (device_of self.new) }
        ensures table { volume_table self.new ≡ volume_table self.old }
        ensures adds { OnOk result ((from : SinceHistory B) (h : History) (s : VolumeState)
            → VolumesStandFor (DeviceHolds B.stands B.kept from) self.old h
            → ShowsVolumes (B.block_count (device_of self.old)) (after_all h) s
            → IsTrue (B.tells (device_of self.new))
            → Adds (VolumesStandFor (DeviceHolds B.stands B.kept from) self.new)
            (B.block_count (device_of self.old)) h (with_block s id block bytes.now)) }
        ensures stands { OnErr result (halted_of self.new ≡ None
            → (from : SinceHistory B) (h : History)
            → VolumesStandFor (DeviceHolds B.stands B.kept from) self.old h
            → IsTrue (B.tells (device_of self.new))
            → VolumesStandFor (DeviceHolds B.stands B.kept from) self.new h) }
        ensures event { OnOk result ((first : B) (events : Answers)
            → B.kept first (device_of self.old) events
            → KeepsWrite (B.kept first (device_of self.new)) events
            (B.block_count (device_of self.old)) (volume_table self.old) id block bytes.now) }
        ensures untouched { OnErr result (halted_of self.new ≡ halted_of self.old
            → device_of self.new ≡ device_of self.old) }
        ensures lived { OnOk result ((from : SinceHistory B) (start : ℕ) (log : VolLog)
            → (lived : HasLived (VolumesStandFor (DeviceHolds B.stands B.kept from) self.old)
            (B.block_count (device_of self.old)) start log) → IsTrue (B.tells (device_of self.new))
            → LivesMore (VolumesStandFor (DeviceHolds B.stands B.kept from) self.old)
            (VolumesStandFor (DeviceHolds B.stands B.kept from) self.new) (B.block_count
            (device_of self.old)) start log lived (WriteCall id block bytes.now) Wrote) }
        ensures lived_refused { IfErr result (λ fault. halted_of self.new ≡ None
            → (from : SinceHistory B) (start : ℕ) (log : VolLog)
            → (lived : HasLived (VolumesStandFor (DeviceHolds B.stands B.kept from) self.old)
            (B.block_count (device_of self.old)) start log) → IsTrue (B.tells (device_of self.new))
            → LivesMore (VolumesStandFor (DeviceHolds B.stands B.kept from) self.old)
            (VolumesStandFor (DeviceHolds B.stands B.kept from) self.new) (B.block_count
            (device_of self.old)) start log lived (WriteCall id block bytes.now) (Refused fault)) }
    {
        let place = self.place(id, block)?;
        match self.blocks.write(place, bytes) {
            Ok(_) => Ok(()),
            Err(BlockFault::Halt(halt)) => {
                self.halt = Some(halt);
                Err(VolFault::Halt(halt))
            }
            Err(BlockFault::NoBlock { .. }) => unreachable!(),
        }
    }

    /// Flushes the device. Ok gives the length of the history. That no stop takes any of it away
    /// holds where the device's `kept` says so.
    pub fn flush(&mut self) -> Result<u64, VolFault>
        ensures fault { IfErr result (IsHalt (halted_of self.new)) }
        ensures halt { halted_of self.new ≡ vol_halt_in result }
        ensures went { DeviceGoesOn B.block_count B.halts B.halted B.tells (device_of self.old)
            (device_of self.new) }
        ensures grown { KeepsMore B.kept B.tells IsFlushEvent
            (device_of self.old) (device_of self.new) }
        ensures table { volume_table self.new ≡ volume_table self.old }
        ensures stands { IfOk result (λ number. (from : SinceHistory B) (h : History)
            → VolumesStandFor (DeviceHolds B.stands B.kept from) self.old h
            → IsTrue (B.tells (device_of self.new))
            → (number ≡ length h) × VolumesStandFor (DeviceHolds B.stands B.kept from) self.new h) }
        ensures event { IfOk result (λ number. (first : B) (events : Answers)
            → B.kept first (device_of self.old) events → B.kept first
            (device_of self.new) (events ++ (FlushEvent, FlushedAnswer number) ∷ [])) }
        ensures untouched { OnErr result (halted_of self.new ≡ halted_of self.old
            → device_of self.new ≡ device_of self.old) }
        ensures lived { IfOk result (λ number. (from : SinceHistory B) (start : ℕ) (log : VolLog)
            → (lived : HasLived (VolumesStandFor (DeviceHolds B.stands B.kept from) self.old)
            (B.block_count (device_of self.old)) start log) → IsTrue (B.tells (device_of self.new))
            → LivesMore (VolumesStandFor (DeviceHolds B.stands B.kept from) self.old)
            (VolumesStandFor (DeviceHolds B.stands B.kept from) self.new)
            (B.block_count (device_of self.old)) start log lived FlushCall (Flushed number)) }
    {
        if let Some(halt) = self.halt {
            return Err(VolFault::Halt(halt));
        }
        match self.blocks.flush() {
            Ok(number) => Ok(number),
            Err(halt) => {
                self.halt = Some(halt);
                Err(VolFault::Halt(halt))
            }
        }
    }

    /// The number of blocks of a volume, 0 where there is none.
    pub fn size(&self, id: u8) -> u32
        ensures live { IsLiveId (volume_table self.now) id
            → result ≡ size_of (B.block_count (device_of self.now)) * extents_owned
            (owner_in (volume_table self.now)) id (count_of (B.block_count (device_of self.now))) }
        ensures free { (IsLiveId (volume_table self.now) id → ⊥) → result ≡ 0 }
    {
        if !self.table.is_live(id) {
            return 0;
        }
        self.size * self.table.owned(id, self.extents)
    }

    /// The volume with this name.
    pub fn find(&self, name: &Name) -> Option<u8>
        ensures some { IfSome result (λ id. IsLiveId (volume_table self.now) id
            × IsNameOf (volume_table self.now) id name.now) }
        ensures none { IfNone result ((id : ℕ) → IsLiveId (volume_table self.now) id
            → IsNameOf (volume_table self.now) id name.now → ⊥) }
    {
        self.table.find(name)
    }

    /// The name of a volume.
    pub fn name(&self, id: u8) -> Option<Name>
        ensures some { IfSome result (λ name. IsLiveId (volume_table self.now) id
            × IsNameOf (volume_table self.now) id name) }
        ensures none { IfNone result (IsLiveId (volume_table self.now) id → ⊥) }
    {
        if !self.table.is_live(id) {
            return None;
        }
        Some(self.table.name(id))
    }

    /// Removes a volume, by one write.
    pub fn delete(&mut self, id: u8) -> Result<(), VolFault>
        ensures fault { IfErr result (IsIdFault (volume_table self.old) (halted_of self.new) id) }
        ensures served { OnOk result (IsLiveId (volume_table self.old) id) }
        ensures halt { halted_of self.new ≡ vol_halt_in result }
        ensures went { DeviceGoesOn B.block_count B.halts B.halted B.tells (device_of self.old)
            (device_of self.new) }
        ensures grown { KeepsMore B.kept B.tells IsWriteEvent
            (device_of self.old) (device_of self.new) }
        ensures refused { OnErr result (volume_table self.new ≡ volume_table self.old) }
        ensures adds { OnOk result ((from : SinceHistory B) (h : History) (s : VolumeState)
            → VolumesStandFor (DeviceHolds B.stands B.kept from) self.old h
            → ShowsVolumes (B.block_count (device_of self.old)) (after_all h) s
            → IsTrue (B.tells (device_of self.new)) → Adds (VolumesStandFor
            (DeviceHolds B.stands B.kept from) self.new) (B.block_count (device_of self.old)) h
            (without_volume (size_of (B.block_count (device_of self.old))) s id)) }
        ensures stands { OnErr result (halted_of self.new ≡ None
            → (from : SinceHistory B) (h : History)
            → VolumesStandFor (DeviceHolds B.stands B.kept from) self.old h
            → IsTrue (B.tells (device_of self.new))
            → VolumesStandFor (DeviceHolds B.stands B.kept from) self.new h) }
        ensures untouched { OnErr result (halted_of self.new ≡ halted_of self.old
            → device_of self.new ≡ device_of self.old) }
        ensures lived { OnOk result ((from : SinceHistory B) (start : ℕ) (log : VolLog)
            → (lived : HasLived (VolumesStandFor (DeviceHolds B.stands B.kept from) self.old)
            (B.block_count (device_of self.old)) start log) → IsTrue (B.tells (device_of self.new))
            → LivesMore (VolumesStandFor (DeviceHolds B.stands B.kept from) self.old)
            (VolumesStandFor (DeviceHolds B.stands B.kept from) self.new)
            (B.block_count (device_of self.old)) start log lived (DeleteCall id) Removed) }
        ensures lived_refused { IfErr result (λ fault. halted_of self.new ≡ None
            → (from : SinceHistory B) (start : ℕ) (log : VolLog)
            → (lived : HasLived (VolumesStandFor (DeviceHolds B.stands B.kept from) self.old)
            (B.block_count (device_of self.old)) start log) → IsTrue (B.tells (device_of self.new))
            → LivesMore (VolumesStandFor (DeviceHolds B.stands B.kept from) self.old)
            (VolumesStandFor (DeviceHolds B.stands B.kept from) self.new)
            (B.block_count (device_of self.old)) start log lived (DeleteCall id) (Refused fault)) }
        ensures next { OnOk result (IsWithout id (count_of (B.block_count (device_of self.old)))
            (volume_table self.old) (volume_table self.new)) }
        ensures event { OnOk result (KeepsThen B.kept
            (IsTableWrite (AreChanges (volume_table self.old) (volume_table self.new) 6))
            (device_of self.old) (device_of self.new)) }
    {
        if let Some(halt) = self.halt {
            return Err(VolFault::Halt(halt));
        }
        if !self.table.is_live(id) {
            return Err(VolFault::NoVolume { id });
        }
        let next = self.table.without(id, self.extents);
        match write_table(&mut self.blocks, &self.table.changes(&next)) {
            Ok(()) => {
                self.table = next;
                Ok(())
            }
            Err(halt) => {
                self.halt = Some(halt);
                Err(VolFault::Halt(halt))
            }
        }
    }

    // The id of a new volume of this name and so many extents.
    fn new_id(&self, name: &Name, extents: u32) -> Result<u8, VolFault>
        ensures fault { IfErr result (IsCreateFault (B.block_count (device_of self.now))
            (volume_table self.now) (halted_of self.now) name.now extents) }
        ensures halt { vol_halt_in result ≡ halted_of self.now }
        ensures served { OnOk result (CanCreate (B.block_count (device_of self.now))
            (volume_table self.now) name.now extents) }
        ensures id { IfOk result (IsLeastFree (volume_table self.now)) }
    {
        if let Some(halt) = self.halt {
            return Err(VolFault::Halt(halt));
        }
        if let Some(id) = self.table.find(name) {
            return Err(VolFault::Exists { id });
        }
        if extents == 0 {
            return Err(VolFault::NoExtents);
        }
        let Some(id) = self.table.free_id() else {
            return Err(VolFault::Names);
        };
        let free = self.free();
        if free < extents {
            return Err(VolFault::Space { free });
        }
        Ok(id)
    }

    /// Makes a volume of so many extents, of zeros. Ok gives its id.
    pub fn create(&mut self, name: &Name, extents: u32) -> Result<u8, VolFault>
        ensures fault { IfErr result (IsCreateFault (B.block_count (device_of self.old))
            (volume_table self.old) (halted_of self.new) name.now extents) }
        ensures served { OnOk result (CanCreate (B.block_count (device_of self.old))
            (volume_table self.old) name.now extents) }
        ensures halt { halted_of self.new ≡ vol_halt_in result }
        ensures went { DeviceGoesOn B.block_count B.halts B.halted B.tells (device_of self.old)
            (device_of self.new) }
        ensures grown { KeepsMore B.kept B.tells IsWriteEvent
            (device_of self.old) (device_of self.new) }
        ensures refused { OnErr result (volume_table self.new ≡ volume_table self.old) }
        ensures id { IfOk result (IsLeastFree (volume_table self.old)) }
        ensures makes { IfOk result (λ id. (from : SinceHistory B) (h : History) (s : VolumeState)
            → VolumesStandFor (DeviceHolds B.stands B.kept from) self.old h
            → ShowsVolumes (B.block_count (device_of self.old)) (after_all h) s
            → IsTrue (B.tells (device_of self.new))
            → Makes (VolumesStandFor (DeviceHolds B.stands B.kept from) self.new)
            (B.block_count (device_of self.old)) h s (with_volume
            (size_of (B.block_count (device_of self.old))) s id (letter_of name.now) extents)) }
        ensures stands { OnErr result (halted_of self.new ≡ None
            → (from : SinceHistory B) (h : History)
            → VolumesStandFor (DeviceHolds B.stands B.kept from) self.old h
            → IsTrue (B.tells (device_of self.new))
            → VolumesStandFor (DeviceHolds B.stands B.kept from) self.new h) }
        ensures untouched { OnErr result (halted_of self.new ≡ halted_of self.old
            → device_of self.new ≡ device_of self.old) }
        ensures lived { IfOk result (λ id. (from : SinceHistory B) (start : ℕ) (log : VolLog)
            → (lived : HasLived (VolumesStandFor (DeviceHolds B.stands B.kept from) self.old)
            (B.block_count (device_of self.old)) start log) → IsTrue (B.tells (device_of self.new))
            → LivesMore (VolumesStandFor (DeviceHolds B.stands B.kept from) self.old)
            (VolumesStandFor (DeviceHolds B.stands B.kept from) self.new) (B.block_count (device_of
            self.old)) start log lived (CreateCall (letter_of name.now) extents) (Made id)) }
        ensures lived_refused { IfErr result (λ fault. halted_of self.new ≡ None
            → (from : SinceHistory B) (start : ℕ) (log : VolLog)
            → (lived : HasLived (VolumesStandFor (DeviceHolds B.stands B.kept from) self.old)
            (B.block_count (device_of self.old)) start log) → IsTrue (B.tells (device_of self.new))
            → LivesMore (VolumesStandFor (DeviceHolds B.stands B.kept from) self.old)
            (VolumesStandFor (DeviceHolds B.stands B.kept from) self.new) (B.block_count (device_of
            self.old)) start log lived (CreateCall (letter_of name.now) extents) (Refused fault)) }
        ensures next { IfOk result (λ id. IsWith id name.now extents
            (count_of (B.block_count (device_of self.old)))
            (volume_table self.old) (volume_table self.new)) }
        ensures events { IfOk result (λ id.
            KeepsThen B.kept (AreOfCreate id (size_of (B.block_count (device_of self.old)))
            (count_of (B.block_count (device_of self.old))) (volume_table self.old)
            (volume_table self.new)) (device_of self.old) (device_of self.new)) }
    {
        let id = self.new_id(name, extents)?;
        let next = self.table.with(id, name, extents, self.extents);
        match make(
            &mut self.blocks,
            &self.table,
            &next,
            id,
            self.size,
            self.extents,
        ) {
            Ok(()) => {
                self.table = next;
                Ok(id)
            }
            Err(halt) => {
                self.halt = Some(halt);
                Err(VolFault::Halt(halt))
            }
        }
    }
}
