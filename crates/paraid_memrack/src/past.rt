//! A slot as it was at an earlier moment, made again call by call.
ghost use Rattle.std.specs.Prelude.{◌≡◌, ◌≢◌, ◌<◌, ◌^◌, false, [], length, map, replicate, IfOk, OnOk};
ghost use Rattle.paraid_base.specs.Xor.{zero_block};
ghost use Rattle.paraid_rack.specs.declared.call.Power.TheVariants.{Absent, Spinning};

use crate::log::Start;
use crate::stop::Pick;
use crate::versions::{Versions, firm_versions, fresh_versions, left_blocks};
use paraid_base::{Block, NoMemory, Place};
use paraid_rack::{Call, Power};
use std::alloc::Global;

/// A slot at an earlier moment, with no block where it is absent.
#[derive(Drop)]
pub struct PastSlot {
    pub power: Power,
    pub versions: Vec<Versions>,
    ghost small: { length versions.items < 2 ^ 32 },
    ghost empty: { power ≡ Absent → versions.items ≡ [] },
}

impl PastSlot {
    ghost use Rattle.paraid_memrack.specs.Versions.{synced_block, after_block_sync, write_version};
    ghost use Rattle.paraid_memrack.specs.Past.{past_of, past_start, no_past, MakesPast, in_bytes, left_in_bytes};
    ghost use Rattle.paraid_memrack.specs.Tells.{beginning_of};

    /// A slot at the start.
    pub fn at_start(alloc: Global, start: &Start) -> Result<Self, NoMemory>
        ensures { IfOk result (λ slot. past_of slot ≡ past_start (beginning_of start.now)) }
    {
        let versions = firm_versions(alloc, &start.blocks)?;
        Ok(PastSlot {
            power: start.power,
            versions,
        })
    }

    /// The slot after this call on it.
    pub fn follow(&mut self, alloc: Global, call: &Call) -> Result<(), NoMemory>
        ensures { OnOk result (MakesPast call.now (past_of self.old) (past_of self.new)) }
    {
        if !call.is_done() {
            self.vanish(alloc);
            return Ok(());
        }
        match call {
            Call::Read { .. } => Ok(()),
            Call::Write { place, bytes, .. } => {
                self.write(*place, bytes);
                Ok(())
            }
            Call::Sync { .. } => {
                self.mark_synced();
                Ok(())
            }
            Call::Park { .. } => {
                self.turn(Power::Parked);
                Ok(())
            }
            Call::SpinUp { .. } => {
                self.turn(Power::Spinning);
                Ok(())
            }
            Call::Attach { size, .. } => {
                self.attach(alloc, *size)?;
                Ok(())
            }
        }
    }

    // There is no disk any more.
    fn vanish(&mut self, alloc: Global)
        ensures { past_of self.new ≡ no_past }
    {
        *self = PastSlot {
            power: Power::Absent,
            versions: Vec::new(alloc),
        };
    }

    // A block is written, where there is such a place: so a replay need not know that a listed
    // write was within its disk.
    fn write(&mut self, place: Place, block: &Block)
        ensures { past_of self.new
            ≡ record (past_of self.old)
            { versions = write_version self.old.versions.items place block.now } }
    {
        if (place as usize) < self.versions.len() {
            let version = &mut self.versions[place as usize];
            version.written.copy_from(block);
            version.loose = true;
        }
    }

    // All that was written is kept.
    fn mark_synced(&mut self)
        ensures { past_of self.new
            ≡ record (past_of self.old)
            { versions = map after_block_sync self.old.versions.items } }
    {
        for at in 0..self.versions.len() {
            let version = &mut self.versions[at];
            version.kept.copy_from(&version.written);
            version.loose = false;
        }
    }

    // It is powered otherwise.
    fn turn(&mut self, power: Power)
        requires { power ≢ Absent }
        ensures { past_of self.new ≡ record (past_of self.old) { power = power } }
    {
        self.power = power;
    }

    // There is a fresh disk of so many blocks of zeros.
    fn attach(&mut self, alloc: Global, size: u32) -> Result<(), NoMemory>
        ensures { OnOk result (past_of self.new
            ≡ record { power = Spinning; versions = replicate size (synced_block zero_block) }) }
    {
        let versions = fresh_versions(alloc, size)?;
        *self = PastSlot {
            power: Power::Spinning,
            versions,
        };
        Ok(())
    }

    /// The slot after a stop.
    pub fn left(&self, alloc: Global, pick: Pick) -> Result<Start, NoMemory>
        ensures { IfOk result (λ start.
            in_bytes (beginning_of start) ≡ left_in_bytes pick (past_of self.now)) }
    {
        let blocks = left_blocks(alloc, &self.versions, pick)?;
        Ok(Start {
            power: self.power,
            blocks,
        })
    }
}
