//! A mount that gives a core in service.
ghost use Rattle.std.specs.Prelude.{◌≡◌, ℕ, ◌≤◌, [], Some, IfErr, IfOk};
ghost use Rattle.paraid_core.specs.CoreInvariant.{AreCopiesSynced};
ghost use Rattle.paraid_core.specs.Cores.{batch_of, copied_of, core_rack, core_table, draft_of, meta_of, store_of};
ghost use Rattle.paraid_gear.specs.ThreeWindows.{HoldLastSamples, lengths_of};
ghost use Rattle.paraid_rack.specs.Trail.{Trail, moments};
ghost use Rattle.paraid_rack.specs.Told.{Extends};
ghost use Rattle.paraid_record.specs.Range.{IsInRange};
ghost use Rattle.paraid_recover.specs.Mount.{IsCauseOfRefusal};
ghost use Rattle.paraid_array.specs.Begun.{IsBegunCore, IsMountedCore, StandsBegun};
ghost use Rattle.paraid_session.specs.Mount.{IsMountedFromEach, IsRefusedFromEach};
ghost use Rattle.paraid_recover.specs.StartRefusals.{refusal_by_fault};

use paraid_base::NoMemory;
use paraid_core::{Changes, Core, a_powered_array_can_begin};
use paraid_gear::Windows;
use paraid_rack::Rack;
use paraid_recover::{MountFault, MountRefused, Mounted, mount};
use paraid_view::Draft;
use std::alloc::Global;

/// A mounted array: its core, and windows for the samples of its ticks.
#[derive(Drop)]
pub struct Begun<R: Rack> {
    pub core: Core<R>,
    pub windows: Windows,
}

// The memory that an array needs beside that of its mount.
#[derive(Drop)]
struct Memory {
    draft: Draft,
    changes: Changes,
    windows: Windows,
}

fn take_memory(alloc: Global) -> Result<Memory, NoMemory>
    ensures draft { IfOk result (λ memory. memory.draft ≡ []) }
{
    let draft = Draft::new(alloc)?;
    let changes = Changes::new(alloc)?;
    let windows = Windows::new(alloc)?;
    Ok(Memory {
        draft,
        changes,
        windows,
    })
}

// A core takes over what was mounted.
fn begin<R: Rack>(mounted: Mounted<R>, memory: Memory) -> Begun<R>
    requires in_range { IsInRange mounted.meta }
    ensures store { store_of result.core ≡ mounted.store }
    ensures meta { meta_of result.core ≡ mounted.meta }
    ensures table { core_table result.core ≡ mounted.dirty }
    ensures batch { batch_of result.core ≡ mounted.batch }
    ensures draft { draft_of result.core ≡ memory.draft }
    ensures copies_synced { AreCopiesSynced mounted.meta.setup.geometry.disks
        (copied_of result.core) }
    ensures lengths { lengths_of result.windows ≡ mounted.meta.setup.windows }
    ensures none { HoldLastSamples result.windows [] }
{
    let Memory {
        draft,
        changes,
        mut windows,
    } = memory;
    windows.start(mounted.meta.setup.windows);
    let Mounted {
        store,
        meta,
        dirty,
        batch,
    } = mounted;
    Begun {
        core: Core::new(store, meta, dirty, batch, draft, changes),
        windows,
    }
}

/// Mounts an array, and gives a core that serves it. Nothing is staged, and nothing is counted yet.
///
/// All memory is taken before the first write: what an array needs beside its mount before the
/// first call.
pub fn mount_core<R: Rack>(alloc: Global, rack: R) -> Result<Begun<R>, MountRefused<R>>
    ensures slots { IfOk result (λ it. R.slot_count (core_rack it.core) ≡ R.slot_count rack) }
    // It can go through each event. Nothing is staged, and nothing is unsynced; a disk that is gone
    // gets no sync.
    ensures begun { IfOk result (λ it. IsBegunCore it.core) }
    ensures lengths { IfOk result (λ it. lengths_of it.windows ≡ (meta_of it.core).setup.windows) }
    ensures none { IfOk result (λ it. HoldLastSamples it.windows []) }
    ensures later { IfOk result (λ it. (d : ℕ) → (R.slot rack d).faults
        ≤ (R.slot (core_rack it.core) d).faults) }
    ensures refused_slots { IfErr result (λ refused.
        R.slot_count refused.rack ≡ R.slot_count rack) }
    ensures refused_later { IfErr result (λ refused. (d : ℕ) → (R.slot rack d).faults
        ≤ (R.slot refused.rack d).faults) }
    // held or not, it serves what stood on the disks
    ensures mounted { IfOk result (λ it. IsMountedCore R.slot R.told (R.slot_count rack)
        (R.slot rack) (R.told rack) it.core) }
    ensures grows { IfOk result (λ it. Extends (R.told rack) (R.told (core_rack it.core))) }
    // from each rack that held a history, the array stands at the first point of a session
    ensures stands { IfOk result (λ it. (began : ℕ)
        → ((t : Trail) → R.told rack ≡ Some t → began ≡ moments t)
        → IsMountedFromEach (R.slot_count rack) (meta_of it.core).setup began
        (R.told (core_rack it.core)) (StandsBegun R.slot_count R.told it.core)) }
    ensures refused_grows { IfErr result (λ refused. Extends (R.told rack) (R.told refused.rack)) }
    ensures cause { IfErr result (λ refused. IsCauseOfRefusal (R.slot_count rack) (R.slot rack)
        (R.slot refused.rack) (R.told rack) (R.told refused.rack) refused.fault) }
    ensures refused { IfErr result (λ refused. (began : ℕ)
        → ((t : Trail) → R.told rack ≡ Some t → began ≡ moments t)
        → IsRefusedFromEach (R.slot_count rack) began (R.told refused.rack)
        (refusal_by_fault refused.fault)) }
{
    let Ok(memory) = take_memory(alloc) else {
        return Err(MountRefused {
            fault: MountFault::NoMemory,
            rack,
        });
    };
    match mount(alloc, rack) {
        Ok(mounted) => {
            a_powered_array_can_begin();
            Ok(begin(mounted, memory))
        }
        Err(refused) => Err(refused),
    }
}
