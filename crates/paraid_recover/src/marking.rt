//! A disk that is absent is marked gone.
ghost use Rattle.std.specs.Prelude.{◌≡◌, ℕ, ◌+◌, ◌<◌, [], true, Some, OnOk};
ghost use Rattle.paraid_rack.specs.declared.call.Power.TheVariants.{Absent};
ghost use Rattle.paraid_recover.specs.HeldMoments.{KeepsHeld};
ghost use Rattle.paraid_image.specs.Rest.{IsAtRest};
ghost use Rattle.paraid_txn.specs.Commit.{EndsCommitted, IsWholeOrAbsent};
ghost use Rattle.paraid_rack.specs.Told.{Extends, Ran};
ghost use Rattle.paraid_txn.specs.Losses.{IsOutOfCommit};
ghost use Rattle.paraid_txn.specs.Uses.{EachCall, UsesInCommit};
ghost use Rattle.paraid_image.specs.Mark.{marked_gone as marked_of};
ghost use Rattle.paraid_image.specs.Out.{named_out};
ghost use Rattle.paraid_recover.specs.RecoveryMark.{of_version_two};
ghost use Rattle.paraid_recover.specs.Steps.{HasMarked};
ghost use Rattle.paraid_txn.specs.Ready.{CanCommit};
ghost use Rattle.paraid_txn.specs.Steps.{KeepsStore};
ghost use Rattle.paraid_txn.specs.Stores.{disks_of, epoch_of, named_of, store_rack};

use paraid_base::{DiskNo, Out, Two};
use paraid_rack::Rack;
use paraid_record::Meta;
use paraid_txn::{Batch, Store};

/// The meta by which this disk is marked gone.
pub fn marked(meta: &Meta, disk: DiskNo) -> Meta
    ensures { result ≡ marked_of meta.now disk meta.now.epoch }
{
    Meta {
        phase: meta.phase.beside(true),
        fill: 0,
        out: Out::Gone { disk },
        ..*meta
    }
}

/// The meta of the commit that marks this disk gone: it has version 2.
pub(crate) fn next_marked(meta: &Meta, disk: DiskNo) -> Meta
    ensures { result ≡ marked_of (of_version_two meta.now) disk meta.now.epoch }
{
    Meta {
        version: 2,
        ..marked(meta, disk)
    }
}

/// Marks an absent disk by a commit that brings nothing else. No other disk is named out. The meta
/// has version 2, whatever version stood.
pub fn mark<R: Rack>(
    store: &mut Store<R>,
    batch: &Batch,
    meta: &Meta,
    disk: DiskNo,
) -> Result<Option<DiskNo>, Two>
    requires empty { batch.now ≡ [] }
    requires only { (e : ℕ) → named_out meta.now.out ≡ Some e → e ≡ disk }
    requires low { disk < meta.now.setup.geometry.disks }
    requires epoch { epoch_of store.old ≡ meta.now.epoch }
    requires named { named_of store.old ≡ named_out meta.now.out }
    requires absent { (R.slot (store_rack store.old) disk).power ≡ Absent }
    requires can { CanCommit (epoch_of store.old) (disks_of store.old)
        (R.slot_count (store_rack store.old)) (R.slot (store_rack store.old)) batch.now
        (marked_of (of_version_two meta.now) disk meta.now.epoch) }
    ensures kept { KeepsStore (IsOutOfCommit (λ e. (R.slot (store_rack store.old) e).power)
        (disks_of store.old) (named_of store.old) (Some disk)) store.old store.new result }
    ensures marked { HasMarked disk store.old store.new result }
    ensures calls { Ran (R.told (store_rack store.old)) (R.told (store_rack store.new))
        (EachCall (UsesInCommit (marked_of (of_version_two meta.now) disk meta.now.epoch) [])) }
    ensures grows { Extends (R.told (store_rack store.old)) (R.told (store_rack store.new)) }
    ensures held { (slots : ℕ)
        → KeepsHeld (λ s. IsAtRest s meta.now) slots meta.now.setup.geometry.disks
        (R.told (store_rack store.old)) (R.told (store_rack store.new)) }
    ensures moments { IsWholeOrAbsent
        (R.told (store_rack store.old)) (R.told (store_rack store.new)) meta.now
        (marked_of (of_version_two meta.now) disk (meta.now.epoch + 1)) [] }
    ensures committed { OnOk result (EndsCommitted (R.told (store_rack store.old))
        (R.told (store_rack store.new)) meta.now
        (marked_of (of_version_two meta.now) disk (meta.now.epoch + 1)) batch.now) }
{
    let next = next_marked(meta, disk);
    store.commit(batch, &next)
}
