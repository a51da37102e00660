//! That a second loss ends a session where a disk is taken out.
ghost use Rattle.std.specs.Prelude.{◌≡◌, ℕ, ◌<◌, length, Option, Some};
ghost use Rattle.paraid_base.specs.declared.event.Answer.TheVariants.{Halted};
ghost use Rattle.paraid_base.specs.declared.event.Event.TheVariants.{Fail as FailEvent};
ghost use Rattle.paraid_base.specs.declared.fault.Halt.TheVariants.{Two as HaltTwo};
ghost use Rattle.paraid_base.specs.declared.fault.Two.{Two as TwoType};
ghost use Rattle.paraid_base.specs.declared.state.Out.TheVariants.{No};
ghost use Rattle.paraid_base.specs.Log.{worn_at};
ghost use Rattle.paraid_rack.specs.Told.{Ran};
ghost use Rattle.paraid_rack.specs.Trail.{Trail, now};
ghost use Rattle.paraid_record.specs.declared.meta.Setup.{Setup as SetupType};
ghost use Rattle.paraid_session.specs.Turn.{GoesOn, Point, point_wear};
ghost use Rattle.paraid_event.specs.Lost.{IsHaltedFrom, TellsTwo};
ghost use Rattle.paraid_event.specs.Marked.{MarksTakenOut};
ghost use Rattle.paraid_event.specs.Parts.{LosesInEvent, ServesEvent};
ghost use Rattle.paraid_event.specs.Service.{Service};
ghost use Rattle.paraid_event.specs.Stands.{ServiceStandsFor, StandsAt};

/// Where a disk is taken out and two are lost in the commit of what is staged, the answer names
/// both. Where that commit ended and another disk is lost in the one that brings the mark, it names
/// the disk that is taken out first.
pub fn a_second_disk_is_lost_as_one_is_taken_out()
    ensures staged { (told told_then : Option Trail) (k : Service) (setup : SetupType) (p : Point)
        (two : TwoType) (disk : ℕ) → StandsAt told k setup p → point_wear p < worn_at
        → disk < setup.geometry.disks → p.state.out ≡ No
        → Ran told told_then (λ s cs. LosesInEvent k p.history p.low s cs × TellsTwo k two s cs)
        → Ran told told_then (GoesOn k.slots setup p (FailEvent disk) (Halted (HaltTwo two))
        (IsHaltedFrom p (HaltTwo two))) }
    ensures marked { (told mid told_then : Option Trail)
        (k committed marked : Service) (setup : SetupType) (p : Point) (two : TwoType) (disk : ℕ)
        → StandsAt told k setup p → point_wear p < worn_at
        → disk < setup.geometry.disks → p.state.out ≡ No → MarksTakenOut k committed marked disk
        → Ran told mid (ServesEvent k committed p.history p.low p.history (length p.history))
        → ((t : Trail)
        → mid ≡ Some t → ServiceStandsFor committed p.history (length p.history) (now t)
        → ServiceStandsFor marked p.history (length p.history) (now t))
        → Ran mid told_then (λ s cs. LosesInEvent marked p.history (length p.history) s cs
        × TellsTwo marked two s cs) → Ran told told_then (GoesOn k.slots setup p
        (FailEvent disk) (Halted (HaltTwo two)) (IsHaltedFrom p (HaltTwo two))) }
{}
