//! An array in service: a core, and what is counted of its events.
ghost use Rattle.std.specs.Prelude.{◌≡◌, None};
ghost use Rattle.paraid_core.specs.Cores.{core_rack};
ghost use Rattle.paraid_energy.specs.Account.{HasFigures};
ghost use Rattle.paraid_gear.specs.ThreeWindows.{HoldLastSamples, lengths_of};
ghost use Rattle.paraid_array.specs.Lasting.{IsArrayServing, TellsItsWear, halt_of_end, samples_held};
ghost use Rattle.paraid_array.specs.Props.{HasFigures-prop, HoldLastSamples-prop, IsArrayServing-prop, TellsItsWear-prop, while_prop};

use crate::ended::HaltedAt;
use paraid_core::Core;
use paraid_energy::Ledger;
use paraid_gear::Windows;
use paraid_rack::Rack;
use paraid_record::Setup;

/// An array with gears. It answers the events of a session; after a halt each of them gives the
/// halt.
#[derive(Drop)]
pub struct Array<R: Rack> {
    pub(crate) core: Core<R>,
    pub(crate) windows: Windows,
    pub(crate) setup: Setup,
    // the number of slots of the rack
    pub(crate) slots: u8,
    // the requests since the last tick, as many as a sample may have
    pub(crate) served: u32,
    // the energy since the mount
    pub(crate) ledger: Ledger,
    pub(crate) ended: Option<HaltedAt>,
    ghost serving: { ended ≡ None
        → IsArrayServing R.slot_count R.slot core (lengths_of windows) setup slots } by { while_prop
            (IsArrayServing-prop R.slot_count R.slot core (lengths_of windows) setup slots) },
    ghost counted: { R.slot_count (core_rack core) ≡ slots },
    ghost worn: { TellsItsWear core.meta
        (halt_of_end ended) } by { TellsItsWear-prop core.meta (halt_of_end ended) },
    ghost priced: { HasFigures setup ledger } by { HasFigures-prop setup ledger },
    ghost sampled: { HoldLastSamples windows
        (samples_held windows) } by { HoldLastSamples-prop windows (samples_held windows) },
}

impl<R: Rack> Array<R> {
    ghost use Rattle.std.specs.Prelude.{[], length};
    ghost use Rattle.paraid_core.specs.Cores.{meta_of};
    ghost use Rattle.paraid_event.specs.Service.{service_of};
    ghost use Rattle.paraid_event.specs.Stands.{StandsAt};
    ghost use Rattle.paraid_gear.specs.ThreeWindows.{HoldLastSamples};
    ghost use Rattle.paraid_session.specs.Turn.{Point};
    ghost use Rattle.paraid_array.specs.Arrays.{ArrayStandsAt, core_of_array, energy_of_array, halt_of_array, samples_of_array, served_of_array, setup_of_array, slots_of_array};

    /// Takes over a core as a mount leaves it, over so many slots, with windows of the lengths of
    /// its setup that hold no sample.
    pub(crate) fn new(core: Core<R>, windows: Windows, slots: u8) -> Array<R>
        requires serving { IsArrayServing R.slot_count R.slot core
            (lengths_of windows) (meta_of core).setup slots }
        requires none { HoldLastSamples windows [] }
        ensures core { core_of_array result ≡ core }
        ensures setup { setup_of_array result ≡ (meta_of core).setup }
        ensures slots { slots_of_array result ≡ slots }
        ensures going { halt_of_array result ≡ None }
        ensures energy { energy_of_array result ≡ 0 }
        ensures samples { samples_of_array result ≡ [] }
        ensures served { served_of_array result ≡ 0 }
        // It stands where its core does.
        ensures stands { (p : Point)
            → StandsAt (R.told (core_rack core)) (service_of R.slot_count core [] 0 0)
            (meta_of core).setup p → ArrayStandsAt R.slot_count R.told result p }
    {
        let setup = core.meta().setup;
        Array {
            core,
            windows,
            setup,
            slots,
            served: 0,
            ledger: Ledger::new(&setup),
            ended: None,
        }
    }

    /// The energy that it has used since its mount.
    pub fn energy(&self) -> u64
        ensures point { (p : Point)
            → ArrayStandsAt R.slot_count R.told self.now p → result ≡ p.energy }
        ensures value { result ≡ energy_of_array self.now }
    {
        self.ledger.total()
    }

    /// How many writes it has accepted, while there is no halt.
    pub fn writes(&self) -> u64
        ensures point { halt_of_array self.now ≡ None → (p : Point)
            → ArrayStandsAt R.slot_count R.told self.now p → result ≡ length p.history }
        ensures shown { result ≡ (meta_of (core_of_array self.now)).writes }
    {
        self.core.meta().writes
    }

    /// Gives the rack back. It makes no call, and what is staged is dropped.
    pub fn close(self) -> R
        ensures rack { result ≡ core_rack (core_of_array self) }
        // Also after a halt it has as many slots as the one that was mounted.
        ensures slots { R.slot_count result ≡ slots_of_array self }
    {
        self.core.close()
    }
}
