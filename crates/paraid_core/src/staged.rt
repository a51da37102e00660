//! The core of an array: its disks with what is staged over them, and the commit that brings it
//! there.
ghost use Rattle.std.specs.Prelude.{◌≡◌, ◌≢◌, ℕ, ◌<◌, [], length, Some, Ok, OnOk, IfErr, IsSome, true};
ghost use Rattle.paraid_base.specs.History.{History, after_all as held_by};
ghost use Rattle.paraid_rack.specs.Trail.{Trail, now};
ghost use Rattle.paraid_txn.specs.Losses.{StaySynced};
ghost use Rattle.paraid_core.specs.Steps.{AreUnsyncedCopied, IsPutOut};
ghost use Rattle.paraid_core.specs.Replaced.{HaveComeUp};
ghost use Rattle.paraid_core.specs.CoreInvariant.{AreCopiesSynced, lost_in};
ghost use Rattle.paraid_image.specs.Out.{named_out as named_out_of};
ghost use Rattle.paraid_image.specs.Mark.{meta_with_lost};
ghost use Rattle.paraid_core.specs.Committing.{CommitsMeta, CommitsStaged, StandsCommitted, StandsSinceCommit};
ghost use Rattle.paraid_core.specs.Serving.{CanBeCommitted, IsCoreInService, KeepsCells, StagesNothing, StaysReady};

use crate::changes::Changes;
use paraid_base::{Block, BlockNo, DiskNo, Out, Two};
use paraid_dirty::DirtyTable;
use paraid_layout::home;
use paraid_rack::{Power, Rack};
use paraid_record::Meta;
use paraid_txn::{Batch, Store};
use paraid_view::Draft;

/// The disks of an array with all that is staged over them.
///
/// What is staged is laid over each block that is read. A commit brings it to the disks, whole or
/// not at all. A disk that fails is marked as out at once, and by the next commit on the disks.
#[derive(Drop)]
pub struct Core<R: Rack> {
    pub(crate) store: Store<R>,
    pub(crate) meta: Meta,
    pub(crate) dirty: DirtyTable,
    pub(crate) batch: Batch,
    // to which disks copies went since they were last synced
    pub(crate) copied: [bool; 8],
    pub(crate) draft: Draft,
    pub(crate) changes: Changes,
    pub(crate) failed: Option<DiskNo>,
}

// A disk has failed, or none: it is out from now on, unless another one is.
pub(crate) fn lose(meta: &mut Meta, lost: Option<DiskNo>) -> Result<(), Two>
    ensures marked { OnOk result (meta.new ≡ meta_with_lost (lost_in meta.old lost) meta.old) }
    ensures alone { OnOk result ((d x : ℕ) → lost ≡ Some d → named_out_of meta.old.out ≡ Some x
        → d < meta.old.setup.geometry.disks → x ≡ d) }
    ensures two { IfErr result (λ two. (lost ≡ Some two.second)
        × (named_out_of meta.old.out ≡ Some two.first) × (two.first ≢ two.second)) }
{
    let Some(disk) = lost else {
        return Ok(());
    };
    if disk >= meta.setup.geometry.disks {
        return Ok(());
    }
    if let Some(two) = Two::beside(meta.out.named(), disk) {
        return Err(two);
    }
    *meta = Meta {
        out: Out::Gone { disk },
        phase: meta.phase.beside(true),
        fill: 0,
        ..*meta
    };
    Ok(())
}

// A disk has failed, and what was asked of it is not done: it is out from now on, unless another
// one is.
pub(crate) fn put_out(meta: &mut Meta, disk: DiskNo) -> Result<bool, Two>
    ensures never { result ≡ Ok true → ⊥ }
    ensures out { OnOk result (IsPutOut meta.old meta.new (Some disk)) }
    ensures two { IfErr result (λ two. (Some disk ≡ Some two.second)
        × (named_out_of meta.old.out ≡ Some two.first) × (two.first ≢ two.second)) }
{
    lose(meta, Some(disk))?;
    Ok(false)
}

impl<R: Rack> Core<R> {
    ghost use Rattle.paraid_core.specs.Cores.{IsCoreReady, CanCoreServe, CoreStandsFor, batch_of, copied_of, core_block_count, core_down, draft_of, meta_of, core_rack, store_of, core_table};

    /// Takes over an array with this staged, and a draft for the plans of its writes. It makes no
    /// call of the rack.
    pub fn new(
        store: Store<R>,
        meta: Meta,
        dirty: DirtyTable,
        batch: Batch,
        draft: Draft,
        changes: Changes,
    ) -> Core<R>
        ensures store { store_of result ≡ store }
        ensures meta { meta_of result ≡ meta }
        ensures table { core_table result ≡ dirty }
        ensures batch { batch_of result ≡ batch }
        ensures draft { draft_of result ≡ draft }
        ensures copies_synced { AreCopiesSynced meta.setup.geometry.disks (copied_of result) }
    {
        Core {
            store,
            meta,
            dirty,
            batch,
            copied: [false; 8],
            draft,
            changes,
            failed: None,
        }
    }

    /// Gives the rack back. What is staged is dropped.
    pub fn close(self) -> R
        ensures { result ≡ core_rack self }
    {
        self.store.close()
    }

    /// The meta, with all marks that are staged; its epoch is that of the last commit.
    pub fn meta(&self) -> &Meta
        ensures { result.now ≡ meta_of self.now }
    {
        &self.meta
    }

    /// How a disk is powered.
    pub fn power(&self, disk: DiskNo) -> Power
        requires { disk < R.slot_count (core_rack self.now) }
        ensures { result ≡ (R.slot (core_rack self.now) disk).power }
    {
        self.store.power(disk)
    }

    /// The disk that is out.
    pub fn out(&self) -> Out
        ensures { result ≡ (meta_of self.now).out }
    {
        self.meta.out
    }

    /// The cells that are dirty, with all that is staged.
    pub fn dirty(&self) -> &DirtyTable
        ensures { result.now ≡ core_table self.now }
    {
        &self.dirty
    }

    /// The number of targets that are staged.
    pub fn staged(&self) -> u8
        ensures { result ≡ length (batch_of self.now) }
    {
        self.batch.count()
    }

    /// Reads a block: the bytes last written to it, or zeros. What is staged stays as it is; a disk
    /// that fails in the read is out from then on.
    pub fn read_only(&mut self, block: BlockNo, into: &mut Block) -> Result<(), Two>
        requires serving { IsCoreInService self.old }
        requires block { block < core_block_count self.old }
        requires no_draft { draft_of self.old ≡ [] }

        ensures reads { StagesNothing self.old self.new result }

        ensures value { OnOk result ((h : History) (lo : ℕ) (t : Trail)
            → R.told (core_rack self.old) ≡ Some t
            → CoreStandsFor R.slot_count self.old h lo (now t)
            → IsSome (R.told (core_rack self.new)) → into.new ≡ held_by h block) }
    {
        let (r, d) = home(&self.meta.setup.geometry, block);
        self.read_value(r, d, into)
    }

    /// Brings all that is staged to the disks, whole or not at all. A disk that fails in it is out
    /// from then on; the commit goes on without it. A disk that was out and is so no longer by what
    /// is staged comes back in it; then no other one can be lost.
    pub fn commit(&mut self) -> Result<(), Two>
        requires ready { IsCoreReady R.slot_count R.slot self.old }
        requires committable { CanBeCommitted self.old }

        ensures cells { KeepsCells self.old self.new result }
        ensures stays { StaysReady (core_down self.old) self.old self.new result }
        ensures serves { OnOk result (CanCoreServe R.slot self.old → CanCoreServe R.slot self.new) }
        // So it can after a commit in which a disk comes back.
        ensures serves_again { OnOk result (HaveComeUp
            (R.slot (core_rack self.old)) (meta_of self.old) → CanCoreServe R.slot self.new) }
        ensures meta { CommitsMeta self.old self.new result }
        ensures still_synced { OnOk result
            (StaySynced (R.slot (core_rack self.old)) (R.slot (core_rack self.new))) }
        ensures unsynced { OnOk result (AreUnsyncedCopied R.slot self.old
            → AreUnsyncedCopied R.slot self.new) }
        ensures brings { CommitsStaged self.old self.new result }
        ensures nothing { OnOk result (batch_of self.new ≡ []) }

        ensures held { StandsCommitted self.old self.new result }
        ensures held_since { StandsSinceCommit self.old self.new result }
    {
        let lost = self.store.commit(&self.batch, &self.meta)?;
        self.meta.epoch = self.store.epoch();
        self.batch.clear();
        lose(&mut self.meta, lost)
    }
}
