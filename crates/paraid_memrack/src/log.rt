//! What a rack in memory tells, and which of its calls are to fail.
ghost use Rattle.std.specs.Prelude.{◌≡◌, ◌<◌, ◌≤◌, ◌^◌, [], length, map, slice_set, true, vec_capacity, IfOk};
ghost use Rattle.paraid_rack.specs.declared.call.Power.TheVariants.{Absent};
ghost use Rattle.std.specs.List.{list_any};
ghost use Rattle.paraid_memrack.specs.CallPlan.{names_call, is_planned, listed_after, has_room_for_call};
ghost use Rattle.paraid_rack.specs.Calls.{disk_of};
ghost use Rattle.paraid_memrack.specs.Counted.{IsCounted, AreOnSlots};

use crate::past::PastSlot;
use crate::plan::Planned;
use crate::replay::{follow, slots_at_start};
use paraid_base::{Block, DiskNo, NoMemory};
use paraid_rack::{Call, Power};
use std::alloc::Global;

/// How a slot is at the start, with no block where it is absent.
#[derive(Drop)]
pub struct Start {
    pub power: Power,
    pub blocks: Vec<Block>,
    ghost small: { length blocks.items < 2 ^ 32 },
    ghost empty: { power ≡ Absent → blocks.items ≡ [] },
}

/// The start, the calls that are listed since then, and the plan of failures.
#[derive(Drop)]
pub struct Log {
    pub start: Vec<Start>,
    pub calls: Vec<Call>,
    pub tells: bool,
    pub most: u32,
    pub plan: Vec<Planned>,
    counts: [u32; 8],
    ghost wide: { length counts ≡ 8 },
    ghost short: { most < 2 ^ 32 },
    ghost room: { most ≤ vec_capacity calls },
    ghost few: { length calls.items ≤ most },
    ghost counted: { IsCounted counts calls.items },
    ghost on_slots: { AreOnSlots (length start.items) calls.items },
}

impl Log {
    ghost use Rattle.paraid_memrack.specs.Tells.{told_by, told_after, beginning_of, no_beginning};
    ghost use Rattle.paraid_memrack.specs.Past.{AllPastAt};

    /// No call yet. It takes the memory for its list.
    pub fn new(
        alloc: Global,
        start: Vec<Start>,
        most: u32,
        plan: Vec<Planned>,
    ) -> Result<Self, NoMemory>
        ensures start { IfOk result (λ log. log.start.items ≡ start.items) }
        ensures calls { IfOk result (λ log. log.calls.items ≡ []) }
        ensures tells { IfOk result (λ log. log.tells ≡ true) }
        ensures most { IfOk result (λ log. log.most ≡ most) }
        ensures plan { IfOk result (λ log. log.plan.items ≡ plan.items) }
    {
        let Ok(calls) = Vec::with_capacity(alloc, most as usize) else {
            return Err(NoMemory);
        };
        Ok(Log {
            start,
            calls,
            tells: true,
            most,
            plan,
            counts: [0; 8],
        })
    }

    /// Whether the next call is to fail, if it is on this disk.
    pub fn is_planned(&self, disk: DiskNo) -> bool
        requires { disk < 8 }
        ensures { result ≡ is_planned self.now.most self.now.plan.items self.now.calls.items disk }
    {
        let at = self.calls.len() as u32;
        let nth = self.counts[disk as usize];
        at < self.most && names_any(&self.plan, at, disk, nth)
    }

    /// Lists a call on this disk, or tells nothing from now on where the list is full.
    pub fn note(&mut self, disk: DiskNo, call: Call)
        requires small { disk < 8 }
        requires exists { disk < length self.old.start.items }
        requires on { disk_of call ≡ disk }
        ensures start { self.new.start ≡ self.old.start }
        ensures most { self.new.most ≡ self.old.most }
        ensures plan { self.new.plan ≡ self.old.plan }
        ensures calls { self.new.calls.items
            ≡ listed_after self.old.most self.old.calls.items call }
        ensures told { told_by self.new.tells self.new.start.items self.new.calls.items
            ≡ told_after (has_room_for_call self.old.most self.old.calls.items)
            (told_by self.old.tells self.old.start.items self.old.calls.items) call }
    {
        if (self.calls.len() as u32) < self.most {
            self.calls.push_reserved(call);
            self.counts[disk as usize] += 1;
        } else {
            self.tells = false;
        }
    }

    /// The slots before call `moment`, by the calls that are listed.
    pub fn slots_at(&self, alloc: Global, moment: u32) -> Result<Vec<PastSlot>, NoMemory>
        requires { moment ≤ length self.now.calls.items }
        ensures length { IfOk result (λ slots. length slots.items ≡ length self.now.start.items) }
        ensures slots { IfOk result (λ slots. AllPastAt
            (record { start = map beginning_of self.now.start.items; calls = self.now.calls.items })
            moment slots.items) }
    {
        let mut slots = slots_at_start(alloc, &self.start)?;
        for m in 0..moment {
            follow(&mut slots, alloc, &self.calls[m as usize])?;
        }
        Ok(slots)
    }

    /// The disk of a slot is not there at the start.
    pub fn lose(&mut self, alloc: Global, disk: DiskNo)
        requires exists { disk < length self.old.start.items }
        requires unused { self.old.calls.items ≡ [] }
        ensures start { map beginning_of self.new.start.items
            ≡ slice_set (map beginning_of self.old.start.items) disk no_beginning }
        ensures calls { self.new.calls ≡ self.old.calls }
        ensures tells { self.new.tells ≡ self.old.tells }
        ensures most { self.new.most ≡ self.old.most }
        ensures plan { self.new.plan ≡ self.old.plan }
    {
        self.start[disk as usize] = Start {
            power: Power::Absent,
            blocks: Vec::new(alloc),
        };
    }
}

// Whether one of the plan names call `at`, which is call `nth` on its disk.
fn names_any(plan: &Vec<Planned>, at: u32, disk: DiskNo, nth: u32) -> bool
    ensures { result ≡ list_any (names_call at disk nth) plan.now.items }
{
    plan.iter().any(|planned| planned.names(at, disk, nth))
}
