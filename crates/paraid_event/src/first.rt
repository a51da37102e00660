//! That an array stands at the first point of its session.
ghost use Rattle.std.specs.Prelude.{◌≡◌, ℕ, Option, Some};
ghost use Rattle.paraid_base.specs.History.{History};
ghost use Rattle.paraid_rack.specs.Disks.{Disks};
ghost use Rattle.paraid_rack.specs.Trail.{Trail, now};
ghost use Rattle.paraid_record.specs.declared.meta.Meta.{Meta as MetaType};
ghost use Rattle.paraid_recover.specs.FirstPoint.{first_point};
ghost use Rattle.paraid_event.specs.First.{BeginsService};
ghost use Rattle.paraid_event.specs.Service.{Service};
ghost use Rattle.paraid_event.specs.Stands.{StandsAt};

/// After a mount an array stands at the first point of its session.
pub fn a_service_begins_at_the_first_point()
    ensures { (told : Option Trail) (s : Disks) (standing : MetaType) (h : History)
        (spun : ℕ → ℕ) (k : Service)
        → BeginsService s standing h spun k → ((t : Trail) → told ≡ Some t → now t ≡ s)
        → StandsAt told k standing.setup (first_point s standing h spun) }
{}
