//! A line about a volume, as a step of volumes.
ghost use Rattle.std.specs.Prelude.{◌≡◌, ℕ, ◌<◌, List, IfOk, IsTrue, None, codes, slice_index_or};
ghost use Rattle.paraid_volume_lines.specs.NameWords.{word_of};
ghost use Rattle.paraid_service.specs.LineSteps.{AnswersLine, KeepsFlush, RepliesHeld};
ghost use Rattle.paraid_volume_lines.specs.Grammar.{create as CreateLine, delete as DeleteLine, flush as FlushLine, read as ReadLine, write as WriteLine};
ghost use Rattle.paraid_volume_lines.specs.Texts.{created_text, deleted_text, flushed_text, read_text, written_text};
ghost use Rattle.paraid_volume.specs.Device.{DeviceGoesOn, DeviceHolds, IsFlushEvent, IsReadEvent, IsWriteEvent, KeepsMore, SinceHistory, halt_in};
ghost use Rattle.paraid_volume.specs.Lives.{HasLived, VolLog};
ghost use Rattle.paraid_volume.specs.Faults.{vol_halt_in};
ghost use Rattle.paraid_volume.specs.NameValues.{letter_of};
ghost use Rattle.paraid_volume.specs.Values.{VolumesStandFor, device_of, halted_of};

use paraid_base::{Block, BlockNo, Halt};
use paraid_blocks::Blocks;
use paraid_volume::{Name, VolFault, Volumes};

/// Removes the volume of this name, and says whether there was one.
pub fn delete_named<B: Blocks>(volumes: &mut Volumes<B>, name: &Name) -> Result<bool, Halt>
    ensures halt { halted_of volumes.old ≡ None → halted_of volumes.new ≡ halt_in result }
    ensures went { DeviceGoesOn B.block_count B.halts B.halted B.tells
        (device_of volumes.old) (device_of volumes.new) }
    ensures keeps { KeepsMore B.kept B.tells IsWriteEvent
        (device_of volumes.old) (device_of volumes.new) }
    ensures line { IfOk result (λ there. (from : SinceHistory B) (start : ℕ) (log : VolLog)
        → (lived : HasLived (VolumesStandFor (DeviceHolds B.stands B.kept from) volumes.old)
        (B.block_count (device_of volumes.old)) start log)
        → IsTrue (B.tells (device_of volumes.new))
        → (word : List ℕ) → ((k : ℕ) → k < 16 → slice_index_or word k 0 ≡ letter_of name.now k)
        → AnswersLine (VolumesStandFor (DeviceHolds B.stands B.kept from) volumes.old)
        (VolumesStandFor (DeviceHolds B.stands B.kept from) volumes.new) (B.block_count
        (device_of volumes.old)) start log lived (DeleteLine word) (deleted_text word there)) }
    ensures reply { IfOk result (λ there. halted_of volumes.old ≡ None
        → RepliesHeld B.Blocks volumes.old volumes.new
        (DeleteLine (word_of name.now)) (deleted_text (word_of name.now) there)) }
{
    let Some(id) = volumes.find(name) else {
        return Ok(false);
    };
    match volumes.delete(id) {
        Ok(()) => Ok(true),
        Err(VolFault::Halt(halt)) => Err(halt),
        Err(_) => unreachable!(),
    }
}

/// Reads a block of the volume of this name. Without such a volume it is refused.
pub fn read_named<B: Blocks>(
    volumes: &mut Volumes<B>,
    name: &Name,
    block: BlockNo,
    into: &mut Block,
) -> Result<(), VolFault>
    ensures halt { halted_of volumes.old ≡ None → halted_of volumes.new ≡ vol_halt_in result }
    ensures went { DeviceGoesOn B.block_count B.halts B.halted B.tells
        (device_of volumes.old) (device_of volumes.new) }
    ensures keeps { KeepsMore B.kept B.tells IsReadEvent
        (device_of volumes.old) (device_of volumes.new) }
    ensures line { halted_of volumes.new ≡ None → (from : SinceHistory B) (start : ℕ) (log : VolLog)
        → (lived : HasLived (VolumesStandFor (DeviceHolds B.stands B.kept from) volumes.old)
        (B.block_count (device_of volumes.old)) start log)
        → IsTrue (B.tells (device_of volumes.new))
        → (word : List ℕ) → ((k : ℕ) → k < 16 → slice_index_or word k 0 ≡ letter_of name.now k)
        → AnswersLine (VolumesStandFor (DeviceHolds B.stands B.kept from) volumes.old)
        (VolumesStandFor (DeviceHolds B.stands B.kept from) volumes.new)
        (B.block_count (device_of volumes.old)) start log lived
        (ReadLine word block) (read_text word block result into.new) }
    ensures reply { halted_of volumes.old ≡ None
        → halted_of volumes.new ≡ None → RepliesHeld B.Blocks volumes.old volumes.new
        (ReadLine (word_of name.now) block) (read_text (word_of name.now) block result into.new) }
{
    let Some(id) = volumes.find(name) else {
        return Err(VolFault::NoVolume { id: 0 });
    };
    volumes.read(id, block, into)
}

/// Writes a block of the volume of this name. Without such a volume it is refused.
pub fn write_named<B: Blocks>(
    volumes: &mut Volumes<B>,
    name: &Name,
    block: BlockNo,
    bytes: &Block,
) -> Result<(), VolFault>
    ensures halt { halted_of volumes.old ≡ None → halted_of volumes.new ≡ vol_halt_in result }
    ensures went { DeviceGoesOn B.block_count B.halts B.halted B.tells
        (device_of volumes.old) (device_of volumes.new) }
    ensures keeps { KeepsMore B.kept B.tells IsWriteEvent
        (device_of volumes.old) (device_of volumes.new) }
    ensures line { halted_of volumes.new ≡ None → (from : SinceHistory B) (start : ℕ) (log : VolLog)
        → (lived : HasLived (VolumesStandFor (DeviceHolds B.stands B.kept from) volumes.old)
        (B.block_count (device_of volumes.old)) start log)
        → IsTrue (B.tells (device_of volumes.new))
        → (word : List ℕ) → ((k : ℕ) → k < 16 → slice_index_or word k 0 ≡ letter_of name.now k)
        → AnswersLine (VolumesStandFor (DeviceHolds B.stands B.kept from) volumes.old)
        (VolumesStandFor (DeviceHolds B.stands B.kept from) volumes.new)
        (B.block_count (device_of volumes.old)) start log lived
        (WriteLine word block bytes.now) (written_text result) }
    ensures reply { halted_of volumes.old ≡ None
        → halted_of volumes.new ≡ None → RepliesHeld B.Blocks volumes.old volumes.new
        (WriteLine (word_of name.now) block bytes.now) (written_text result) }
{
    let Some(id) = volumes.find(name) else {
        return Err(VolFault::NoVolume { id: 0 });
    };
    volumes.write(id, block, bytes)
}

/// Makes a volume of this name.
pub fn create_named<B: Blocks>(
    volumes: &mut Volumes<B>,
    name: &Name,
    extents: u32,
) -> Result<u8, VolFault>
    ensures halt { halted_of volumes.new ≡ vol_halt_in result }
    ensures went { DeviceGoesOn B.block_count B.halts B.halted B.tells
        (device_of volumes.old) (device_of volumes.new) }
    ensures keeps { KeepsMore B.kept B.tells IsWriteEvent
        (device_of volumes.old) (device_of volumes.new) }
    ensures line { halted_of volumes.new ≡ None → (from : SinceHistory B) (start : ℕ) (log : VolLog)
        → (lived : HasLived (VolumesStandFor (DeviceHolds B.stands B.kept from) volumes.old)
        (B.block_count (device_of volumes.old)) start log)
        → IsTrue (B.tells (device_of volumes.new))
        → (word : List ℕ) → ((k : ℕ) → k < 16 → slice_index_or word k 0 ≡ letter_of name.now k)
        → AnswersLine (VolumesStandFor (DeviceHolds B.stands B.kept from) volumes.old)
        (VolumesStandFor (DeviceHolds B.stands B.kept from) volumes.new)
        (B.block_count (device_of volumes.old)) start log lived
        (CreateLine word extents) (created_text word result) }
    ensures reply { halted_of volumes.old ≡ None
        → halted_of volumes.new ≡ None → RepliesHeld B.Blocks volumes.old volumes.new
        (CreateLine (word_of name.now) extents) (created_text (word_of name.now) result) }
{
    volumes.create(name, extents)
}

/// Keeps all that was written.
pub fn flush_volumes<B: Blocks>(volumes: &mut Volumes<B>) -> Result<u64, VolFault>
    ensures halt { halted_of volumes.new ≡ vol_halt_in result }
    ensures went { DeviceGoesOn B.block_count B.halts B.halted B.tells
        (device_of volumes.old) (device_of volumes.new) }
    ensures keeps { KeepsMore B.kept B.tells IsFlushEvent
        (device_of volumes.old) (device_of volumes.new) }
    ensures line { halted_of volumes.new ≡ None → (from : SinceHistory B) (start : ℕ) (log : VolLog)
        → (lived : HasLived (VolumesStandFor (DeviceHolds B.stands B.kept from) volumes.old)
        (B.block_count (device_of volumes.old)) start log)
        → IsTrue (B.tells (device_of volumes.new))
        → AnswersLine (VolumesStandFor (DeviceHolds B.stands B.kept from) volumes.old)
        (VolumesStandFor (DeviceHolds B.stands B.kept from) volumes.new)
        (B.block_count (device_of volumes.old)) start log lived FlushLine (flushed_text result) }
    ensures flushed { halted_of volumes.new ≡ None
        → KeepsFlush B.Blocks volumes.old volumes.new × (flushed_text result ≡ codes "flushed") }
    ensures reply { halted_of volumes.old ≡ None → halted_of volumes.new ≡ None
        → RepliesHeld B.Blocks volumes.old volumes.new FlushLine (flushed_text result) }
{
    volumes.flush()
}
