//! That a disk that is replaced is an event of a session.
ghost use Rattle.std.specs.Prelude.{◌≡◌, ℕ, ◌<◌, Option, Some};
ghost use Rattle.paraid_base.specs.declared.event.Answer.TheVariants.{Halted, NoFresh, Replaced};
ghost use Rattle.paraid_base.specs.declared.event.Event.TheVariants.{Replace as ReplaceEvent};
ghost use Rattle.paraid_base.specs.declared.fault.Halt.TheVariants.{Two as HaltTwo};
ghost use Rattle.paraid_base.specs.declared.fault.Two.{Two as TwoType};
ghost use Rattle.paraid_base.specs.declared.state.Out.TheVariants.{Fresh, Gone};
ghost use Rattle.paraid_base.specs.Log.{worn_at};
ghost use Rattle.paraid_base.specs.States.{named_out};
ghost use Rattle.paraid_rack.specs.Told.{Ran};
ghost use Rattle.paraid_rack.specs.Trail.{Trail};
ghost use Rattle.paraid_record.specs.declared.meta.Setup.{Setup as SetupType};
ghost use Rattle.paraid_session.specs.Turn.{GoesOn, Point, point_wear};
ghost use Rattle.paraid_event.specs.Lost.{IsHaltedFrom};
ghost use Rattle.paraid_event.specs.Replacements.{LosesReplaced, ReplacesDisk};
ghost use Rattle.paraid_event.specs.Service.{Service};
ghost use Rattle.paraid_event.specs.Stands.{StandsAt};

/// A disk that is out is replaced by a commit of what is staged and of the mark that it is gone,
/// with its spin-ups forgotten; the attach of a fresh disk; and a commit that it is there. Where
/// the attach failed, or the disk was lost again, there is none.
pub fn a_disk_is_replaced()
    ensures fresh { (told told_then : Option Trail)
        (k k_then : Service) (setup : SetupType) (p : Point) (disk : ℕ) → StandsAt told k setup p
        → point_wear p < worn_at → disk < setup.geometry.disks → named_out p.state.out ≡ Some disk
        → ReplacesDisk told told_then k k_then p.history p.low disk
        → k_then.meta.out ≡ Fresh disk 0 → Ran told told_then (GoesOn k.slots setup p
        (ReplaceEvent disk) (Replaced disk) (StandsAt told_then k_then setup)) }
    ensures gone { (told told_then : Option Trail)
        (k k_then : Service) (setup : SetupType) (p : Point) (disk : ℕ) → StandsAt told k setup p
        → point_wear p < worn_at → disk < setup.geometry.disks → named_out p.state.out ≡ Some disk
        → ReplacesDisk told told_then k k_then p.history p.low disk
        → k_then.meta.out ≡ Gone disk → Ran told told_then (GoesOn k.slots setup p
        (ReplaceEvent disk) (NoFresh disk) (StandsAt told_then k_then setup)) }
{}

/// A second disk that is lost in one of the two commits ends the service.
pub fn a_second_loss_ends_a_replacement()
    ensures { (told told_then : Option Trail) (k : Service)
        (setup : SetupType) (p : Point) (disk : ℕ) (two : TwoType) → StandsAt told k setup p
        → point_wear p < worn_at → disk < setup.geometry.disks → named_out p.state.out ≡ Some disk
        → LosesReplaced told told_then k p.history p.low disk two
        → Ran told told_then (GoesOn k.slots setup p
        (ReplaceEvent disk) (Halted (HaltTwo two)) (IsHaltedFrom p (HaltTwo two))) }
{}
