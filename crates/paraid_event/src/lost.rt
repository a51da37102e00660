//! That a second loss ends a session.
ghost use Rattle.std.specs.Prelude.{ℕ, ◌<◌, All, Option};
ghost use Rattle.paraid_base.specs.declared.block.Block.{Block as BlockType};
ghost use Rattle.paraid_base.specs.declared.event.Answer.TheVariants.{Halted};
ghost use Rattle.paraid_base.specs.declared.event.Event.TheVariants.{Flush as FlushEvent, Read as ReadEvent, Write as WriteEvent};
ghost use Rattle.paraid_base.specs.declared.fault.Halt.TheVariants.{Two as HaltTwo};
ghost use Rattle.paraid_base.specs.declared.fault.Two.{Two as TwoType};
ghost use Rattle.paraid_base.specs.declared.pairs.Pairs.{Pairs as PairsType};
ghost use Rattle.paraid_base.specs.Log.{worn_at};
ghost use Rattle.paraid_base.specs.Pairs.{pairs_of};
ghost use Rattle.paraid_rack.specs.Told.{Ran};
ghost use Rattle.paraid_rack.specs.Trail.{Trail};
ghost use Rattle.paraid_record.specs.declared.meta.Setup.{Setup as SetupType};
ghost use Rattle.paraid_machine.specs.Machine.{block_count};
ghost use Rattle.paraid_session.specs.Turn.{GoesOn, Point, point_wear};
ghost use Rattle.paraid_event.specs.Lost.{IsHaltedFrom, TellsTwo};
ghost use Rattle.paraid_event.specs.Parts.{LosesInEvent};
ghost use Rattle.paraid_event.specs.Service.{Service};
ghost use Rattle.paraid_event.specs.Stands.{StandsAt};

/// Where a second disk is lost in a request or a flush, the answer names both, and nothing is
/// accepted.
pub fn a_second_loss_ends_the_service()
    ensures read { (told told_then : Option Trail) (k : Service) (setup : SetupType) (p : Point)
        (two : TwoType) (block : ℕ) → StandsAt told k setup p → block < block_count setup
        → point_wear p < worn_at
        → Ran told told_then (λ s cs. LosesInEvent k p.history p.low s cs × TellsTwo k two s cs)
        → Ran told told_then (GoesOn k.slots setup p (ReadEvent block) (Halted (HaltTwo two))
        (IsHaltedFrom p (HaltTwo two))) }
    ensures write { (told told_then : Option Trail) (k : Service) (setup : SetupType) (p : Point)
        (two : TwoType) (pairs : PairsType) → StandsAt told k setup p
        → All (λ (pair : ℕ × BlockType). pair.0 < block_count setup) (pairs_of pairs)
        → point_wear p < worn_at
        → Ran told told_then (λ s cs. LosesInEvent k p.history p.low s cs × TellsTwo k two s cs)
        → Ran told told_then (GoesOn k.slots setup p (WriteEvent pairs) (Halted (HaltTwo two))
        (IsHaltedFrom p (HaltTwo two))) }
    ensures flush { (told told_then : Option Trail) (k : Service) (setup : SetupType) (p : Point)
        (two : TwoType) → StandsAt told k setup p → point_wear p < worn_at
        → Ran told told_then (λ s cs. LosesInEvent k p.history p.low s cs × TellsTwo k two s cs)
        → Ran told told_then (GoesOn k.slots setup p FlushEvent (Halted (HaltTwo two))
        (IsHaltedFrom p (HaltTwo two))) }
{}
