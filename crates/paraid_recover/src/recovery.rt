//! Before the array is served a disk that is absent is marked gone, and a meta of version 1 is
//! brought to version 2.
ghost use Rattle.std.specs.Prelude.{◌≡◌, ◌≢◌, ℕ, ◌<◌, ◌≤◌, [], Option, Some, None, IfOk};
ghost use Rattle.paraid_rack.specs.declared.call.Power.TheVariants.{Absent};
ghost use Rattle.paraid_rack.specs.Told.{Ran};
ghost use Rattle.paraid_rack.specs.Trail.{Trail};
ghost use Rattle.paraid_recover.specs.Bearing.{CanBear, EndsBorne, IsNamedLog, IsNewlyNamed};
ghost use Rattle.paraid_txn.specs.Borne.{IsBorneNow};
ghost use Rattle.paraid_recover.specs.HeldMoments.{EndsHeld, Recovers};
ghost use Rattle.paraid_recover.specs.Quiet.{IsInLog};
ghost use Rattle.paraid_recover.specs.RecoveryMark.{renewed as renewed_of, to_mark, with_mark};
ghost use Rattle.paraid_record.specs.Range.{IsInRange};
ghost use Rattle.paraid_image.specs.Out.{named_out};
ghost use Rattle.paraid_image.specs.Sides.{LogState};
ghost use Rattle.paraid_recover.specs.Steps.{CanMarkOut, RecoversOn};
ghost use Rattle.paraid_txn.specs.Losses.{StaySynced, IsOneOut, IsOutOfCommit};
ghost use Rattle.paraid_txn.specs.Steps.{KeepsStore};
ghost use Rattle.paraid_txn.specs.Stores.{disks_of, epoch_of, named_of, store_rack};
ghost use Rattle.paraid_txn.specs.Uses.{EachCall};

use crate::marking::{mark, next_marked};
use crate::witness::bear_named;
use paraid_base::{DiskNo, Out, Two};
use paraid_rack::{Power, Rack};
use paraid_record::Meta;
use paraid_txn::{Batch, Store};

/// The disk that is absent, if no disk is named out, or this one as being rebuilt.
pub(crate) fn unmarked<R: Rack>(store: &Store<R>, meta: &Meta) -> Option<DiskNo>
    requires named { named_of store.now ≡ named_out meta.now.out }
    requires in_range { IsInRange meta.now }
    requires exists { meta.now.setup.geometry.disks ≤ R.slot_count (store_rack store.now) }
    requires disks { disks_of store.now ≡ meta.now.setup.geometry.disks }
    ensures value { result ≡ to_mark (λ d. (R.slot (store_rack store.now) d).power) meta.now }
    ensures only { (d e : ℕ) → result ≡ Some d → named_out meta.now.out ≡ Some e → e ≡ d }
    ensures absent { (d : ℕ) → result ≡ Some d
        → (R.slot (store_rack store.now) d).power ≡ Absent }
    ensures low { (d : ℕ) → result ≡ Some d → d < disks_of store.now }
{
    match meta.out {
        Out::No => store.out(),
        Out::Gone { .. } => None,
        Out::Fresh { disk, .. } => match store.power(disk) {
            Power::Absent => Some(disk),
            _ => None,
        },
    }
}

// Brings a meta of version 1 to version 2 by a commit that brings nothing else. No disk is to be
// marked. It gives the meta that stands then.
fn renew<R: Rack>(store: &mut Store<R>, nothing: &Batch, meta: &Meta) -> Result<Meta, Two>
    requires empty { nothing.now ≡ [] }
    requires can { CanMarkOut store.old meta.now }
    ensures kept { KeepsStore (IsOutOfCommit (λ e. (R.slot (store_rack store.old) e).power)
        (disks_of store.old) (named_of store.old) None) store.old store.new result }
    ensures recovers { RecoversOn meta.now store.old store.new }
    ensures given { IfOk result (λ m. m ≡ renewed_of meta.now) }
    ensures epoch { IfOk result (λ m. m.epoch ≡ epoch_of store.new) }
    ensures named { IfOk result (λ m. named_out m.out ≡ named_of store.new) }
    ensures synced { IfOk result (λ m. StaySynced (R.slot (store_rack store.old))
        (R.slot (store_rack store.new))) }
    ensures one { IfOk result (λ m. IsOneOut (disks_of store.old) (named_of store.old)
        (R.slot (store_rack store.old))
        → IsOneOut (disks_of store.old) (named_out m.out) (R.slot (store_rack store.new))) }
    ensures calls { Ran (R.told (store_rack store.old)) (R.told (store_rack store.new))
        (EachCall (IsInLog (disks_of store.old))) }
    ensures ends { IfOk result (λ m. (slots x : ℕ) (said : LogState) (old : Option Trail)
        → said.meta ≡ meta.now → Recovers slots x said old (R.told (store_rack store.old))
        → EndsHeld slots x said m old (R.told (store_rack store.new))) }
{
    if meta.version != 1 {
        return Ok(*meta);
    }
    let mut next = Meta {
        version: 2,
        ..*meta
    };
    store.commit(nothing, &next)?;
    next.epoch = store.epoch();
    Ok(next)
}

// Marks a disk that is absent where no other disk is named out, and gives the meta that stands
// then. Where there is none to mark, a meta of version 1 is brought to version 2 by a commit of its
// own.
fn mark_or_renew<R: Rack>(store: &mut Store<R>, nothing: &Batch, meta: &Meta) -> Result<Meta, Two>
    requires empty { nothing.now ≡ [] }
    requires can { CanMarkOut store.old meta.now }
    requires witness { named_out meta.now.out ≢ Some 2 → CanBear (R.slot (store_rack store.old)) }
    ensures kept { KeepsStore (IsOutOfCommit (λ e.
        (R.slot (store_rack store.old) e).power) (disks_of store.old) (named_of store.old) (to_mark
        (λ d. (R.slot (store_rack store.old) d).power) meta.now)) store.old store.new result }
    ensures recovers { RecoversOn meta.now store.old store.new }
    ensures given { IfOk result (λ m. m ≡ with_mark meta.now
        (to_mark (λ d. (R.slot (store_rack store.old) d).power) meta.now)) }
    ensures epoch { IfOk result (λ m. m.epoch ≡ epoch_of store.new) }
    ensures named { IfOk result (λ m. named_out m.out ≡ named_of store.new) }
    ensures synced { IfOk result (λ m. StaySynced (R.slot (store_rack store.old))
        (R.slot (store_rack store.new))) }
    ensures one { IfOk result (λ m. IsOneOut (disks_of store.old) (named_of store.old)
        (R.slot (store_rack store.old))
        → IsOneOut (disks_of store.old) (named_out m.out) (R.slot (store_rack store.new))) }
    ensures calls { Ran (R.told (store_rack store.old)) (R.told (store_rack store.new))
        (EachCall (IsInLog (disks_of store.old))) }
    ensures ends { IfOk result (λ m. (slots x : ℕ) (said : LogState) (old : Option Trail)
        → said.meta ≡ meta.now → Recovers slots x said old (R.told (store_rack store.old))
        → EndsHeld slots x said m old (R.told (store_rack store.new))) }
    // witness is borne against a log disk that is named out then, and was not before
    ensures marked { IfOk result (λ m. (slots x : ℕ) (said : LogState) (old : Option Trail)
        → said.meta ≡ meta.now → Recovers slots x said old (R.told (store_rack store.old))
        → EndsBorne (IsNewlyNamed (named_out meta.now.out) (named_of store.new)) slots x said old
        (R.told (store_rack store.new))) }
{
    let Some(disk) = unmarked(store, meta) else {
        return renew(store, nothing, meta);
    };
    mark(store, nothing, meta, disk)?;
    Ok(Meta {
        epoch: store.epoch(),
        ..next_marked(meta, disk)
    })
}

/// Marks a disk that is absent where no other disk is named out, and gives the meta that stands
/// then. Where there is none to mark, a meta of version 1 is brought to version 2 by a commit of
/// its own. Then witness is borne against a log disk that the meta before named out.
///
/// It is the last step of a recovery: the commit that was interrupted was ended, and only reads and
/// syncs were made since.
pub fn mark_out<R: Rack>(store: &mut Store<R>, nothing: &Batch, meta: &Meta) -> Result<Meta, Two>
    requires empty { nothing.now ≡ [] }
    requires can { CanMarkOut store.old meta.now }
    requires witness { named_out meta.now.out ≢ Some 2 → CanBear (R.slot (store_rack store.old)) }
    ensures kept { KeepsStore (IsOutOfCommit (λ e.
        (R.slot (store_rack store.old) e).power) (disks_of store.old) (named_of store.old) (to_mark
        (λ d. (R.slot (store_rack store.old) d).power) meta.now)) store.old store.new result }
    ensures recovers { RecoversOn meta.now store.old store.new }
    ensures given { IfOk result (λ m. m ≡ with_mark meta.now
        (to_mark (λ d. (R.slot (store_rack store.old) d).power) meta.now)) }
    ensures epoch { IfOk result (λ m. m.epoch ≡ epoch_of store.new) }
    ensures named { IfOk result (λ m. named_out m.out ≡ named_of store.new) }
    ensures synced { IfOk result (λ m. StaySynced (R.slot (store_rack store.old))
        (R.slot (store_rack store.new))) }
    ensures one { IfOk result (λ m. IsOneOut (disks_of store.old) (named_of store.old)
        (R.slot (store_rack store.old))
        → IsOneOut (disks_of store.old) (named_out m.out) (R.slot (store_rack store.new))) }
    ensures calls { Ran (R.told (store_rack store.old)) (R.told (store_rack store.new))
        (EachCall (IsInLog (disks_of store.old))) }
    ensures ends { IfOk result (λ m. (slots x : ℕ) (said : LogState) (old : Option Trail)
        → said.meta ≡ meta.now → Recovers slots x said old (R.told (store_rack store.old))
        → EndsHeld slots x said m old (R.told (store_rack store.new))) }
    ensures borne { IfOk result (λ m. IsBorneNow (named_out meta.now.out)
        (R.told (store_rack store.new))) }
    ensures marked { IfOk result (λ m. (slots x : ℕ) (said : LogState) (old : Option Trail)
        → said.meta ≡ meta.now → Recovers slots x said old (R.told (store_rack store.old))
        → EndsBorne (IsNamedLog (named_of store.new)) slots x said old
        (R.told (store_rack store.new))) }
{
    let stands = match mark_or_renew(store, nothing, meta) {
        Ok(stands) => stands,
        Err(two) => return Err(two),
    };
    match bear_named(store, meta) {
        Ok(()) => Ok(stands),
        Err(two) => Err(two),
    }
}
