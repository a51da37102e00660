//! A mount, and that it is what a session asks of one.
ghost use Rattle.std.specs.Prelude.{◌≡◌, ℕ, ◌≤◌, [], length, Some, IfErr, IfOk};
ghost use Rattle.paraid_dirty.specs.Table.{is_dirty};
ghost use Rattle.paraid_rack.specs.Trail.{Trail, moments};
ghost use Rattle.paraid_rack.specs.Told.{Extends};
ghost use Rattle.paraid_recover.specs.Mount.{HasMounted, IsCauseOfRefusal};
ghost use Rattle.paraid_recover.specs.Mounted.{IsServable};
ghost use Rattle.paraid_session.specs.Mount.{IsMountedFromEach, IsRefusedFromEach};
ghost use Rattle.paraid_recover.specs.FirstPoint.{IsFirstPoint};
ghost use Rattle.paraid_recover.specs.StartRefusals.{refusal_by_fault};
ghost use Rattle.paraid_txn.specs.Stores.{disks_of, epoch_of, named_of, store_rack};

use crate::mount_fault::MountFault;
use crate::mounting::{MountRefused, Mounted, mount_with};
use paraid_rack::Rack;
use paraid_txn::Batch;
use std::alloc::Global;

/// Mounts an array, as a session asks of a mount: from each rack that held a history, served or
/// refused. It begins with the point at which the disks rest under the meta that stands.
///
/// All its memory is taken before the first write.
pub fn mount<R: Rack>(alloc: Global, rack: R) -> Result<Mounted<R>, MountRefused<R>>
    ensures slots { IfOk result (λ it. R.slot_count (store_rack it.store) ≡ R.slot_count rack) }
    ensures refused_slots { IfErr result (λ refused. R.slot_count refused.rack
        ≡ R.slot_count rack) }
    ensures servable { IfOk result (λ it. IsServable (R.slot_count (store_rack it.store))
        (R.slot (store_rack it.store)) (epoch_of it.store) (disks_of it.store)
        (named_of it.store) it.meta (length it.dirty)) }
    ensures nothing { IfOk result (λ it. it.batch ≡ []) }
    ensures later { IfOk result (λ it. (d : ℕ) → (R.slot rack d).faults
        ≤ (R.slot (store_rack it.store) d).faults) }
    ensures refused_later { IfErr result (λ refused. (d : ℕ) → (R.slot rack d).faults
        ≤ (R.slot refused.rack d).faults) }
    ensures grows { IfOk result (λ it. Extends (R.told rack) (R.told (store_rack it.store))) }
    ensures refused_grows { IfErr result (λ refused. Extends (R.told rack) (R.told refused.rack)) }
    // what stands, and with it the session that begins
    ensures mounted { IfOk result (λ it. (told : HasMounted (R.slot_count rack) (R.slot rack)
        (R.slot (store_rack it.store)) (named_of it.store) it.meta (is_dirty it.dirty)
        (R.told rack) (R.told (store_rack it.store)))
        × ((slots began : ℕ) → ((t : Trail) → R.told rack ≡ Some t → began ≡ moments t)
        → IsMountedFromEach slots it.meta.setup began (R.told (store_rack it.store))
        (IsFirstPoint told.settled.standing (is_dirty it.dirty)
        (R.told (store_rack it.store))))) }
    ensures cause { IfErr result (λ refused. IsCauseOfRefusal (R.slot_count rack) (R.slot rack)
        (R.slot refused.rack) (R.told rack) (R.told refused.rack) refused.fault) }
    ensures refused { IfErr result (λ refused. (began : ℕ)
        → ((t : Trail) → R.told rack ≡ Some t → began ≡ moments t)
        → IsRefusedFromEach (R.slot_count rack) began (R.told refused.rack)
        (refusal_by_fault refused.fault)) }
{
    let Ok(batch) = Batch::new(alloc) else {
        return Err(MountRefused {
            fault: MountFault::NoMemory,
            rack,
        });
    };
    mount_with(alloc, batch, rack)
}
