//! That requests and flushes are events of a session, also where a disk is lost in them.
ghost use Rattle.std.specs.Prelude.{◌≡◌, ℕ, ◌+◌, ◌<◌, ◌≤◌, ◌∷◌, ◌++◌, [], length, All, Option};
ghost use Rattle.paraid_base.specs.declared.block.Block.{Block as BlockType};
ghost use Rattle.paraid_base.specs.declared.event.Answer.TheVariants.{Energy as EnergyUsed, Flushed, State as IsState, Value, Wrote};
ghost use Rattle.paraid_base.specs.declared.event.Event.TheVariants.{Energy as AskEnergy, Flush as FlushEvent, Read as ReadEvent, State as AskState, Write as WriteEvent};
ghost use Rattle.paraid_base.specs.declared.pairs.Pairs.{Pairs as PairsType};
ghost use Rattle.paraid_base.specs.History.{after_all as held_by};
ghost use Rattle.paraid_base.specs.Log.{worn_at};
ghost use Rattle.paraid_base.specs.Pairs.{pairs_of};
ghost use Rattle.paraid_rack.specs.Told.{Ran};
ghost use Rattle.paraid_rack.specs.Trail.{Trail};
ghost use Rattle.paraid_record.specs.declared.meta.Setup.{Setup as SetupType};
ghost use Rattle.paraid_machine.specs.Machine.{block_count, blocks_named, state_status};
ghost use Rattle.paraid_machine.specs.Moves.{all_written, block_read};
ghost use Rattle.paraid_session.specs.Turn.{GoesOn, Point, point_wear};
ghost use Rattle.paraid_event.specs.Counts.{CountsFlushed, CountsServed};
ghost use Rattle.paraid_event.specs.Parts.{ServesEvent};
ghost use Rattle.paraid_event.specs.Service.{Service};
ghost use Rattle.paraid_event.specs.Stands.{StandsAt};

/// What the state and the energy are asked for makes no call.
pub fn a_question_leaves_an_array_as_it_is()
    ensures state { (told : Option Trail) (k : Service) (setup : SetupType) (p : Point)
        → StandsAt told k setup p → Ran told told (GoesOn k.slots setup p AskState
        (IsState (state_status setup (length p.history) p.state) setup.geometry.disks)
        (StandsAt told k setup)) }
    ensures energy { (told : Option Trail) (k : Service) (setup : SetupType) (p : Point)
        → StandsAt told k setup p → Ran told told (GoesOn k.slots setup p AskEnergy
        (EnergyUsed p.energy) (StandsAt told k setup)) }
{}

/// A read is answered with what was written last, whether it commits first or not, and whether a
/// disk is lost in it or not.
pub fn a_read_is_answered()
    ensures { (told told_then : Option Trail) (k k_then : Service) (setup : SetupType) (p : Point)
        (block lo_then : ℕ) (bytes : BlockType) → StandsAt told k setup p → point_wear p < worn_at
        → block < block_count setup → bytes ≡ held_by p.history block
        → CountsServed k k_then (block_read setup block) → p.low ≤ lo_then
        → Ran told told_then (ServesEvent k k_then p.history p.low p.history lo_then)
        → Ran told told_then (GoesOn k.slots setup p (ReadEvent block) (Value block bytes)
        (StandsAt told_then k_then setup)) }
{}

/// So is a write of several blocks with its number.
pub fn a_write_is_answered()
    ensures { (told told_then : Option Trail) (k k_then : Service) (setup : SetupType) (p : Point)
        (pairs : PairsType) (lo_then : ℕ) → StandsAt told k setup p → point_wear p < worn_at
        → All (λ (pair : ℕ × BlockType). pair.0 < block_count setup) (pairs_of pairs)
        → CountsServed k k_then (all_written setup.geometry.disks (blocks_named (pairs_of pairs)))
        → p.low ≤ lo_then → Ran told told_then
        (ServesEvent k k_then p.history p.low (p.history ++ pairs_of pairs ∷ []) lo_then)
        → Ran told told_then (GoesOn k.slots setup p
        (WriteEvent pairs) (Wrote (length p.history + 1)) (StandsAt told_then k_then setup)) }
{}

/// And a flush with the number of all writes, which no stop takes away from then on; the disks show
/// the dirty cells.
pub fn a_flush_is_answered()
    ensures { (told told_then : Option Trail) (k k_then : Service) (setup : SetupType) (p : Point)
        (lo_then : ℕ) → StandsAt told k setup p → point_wear p < worn_at → CountsFlushed k k_then
        → length p.history ≤ lo_then
        → Ran told told_then (ServesEvent k k_then p.history p.low p.history lo_then)
        → Ran told told_then (GoesOn k.slots setup p FlushEvent (Flushed (length p.history))
        (StandsAt told_then k_then setup)) }
{}
