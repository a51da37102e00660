//! The law of the spellings: no two values in range share one.

ghost use Rattle.std.specs.Prelude.{◌≡◌, ◌≤◌, List, All, length};
ghost use Rattle.paraid_base.specs.Log.{batch_room};
ghost use Rattle.paraid_record.specs.declared.meta.Meta.{Meta as MetaType};
ghost use Rattle.paraid_record.specs.declared.targets.Target.{Target as TargetType};
ghost use Rattle.paraid_record.specs.Meta.{meta_bytes};
ghost use Rattle.paraid_record.specs.Range.{IsInRange};
ghost use Rattle.paraid_record.specs.Targets.{FitsBytes, targets_bytes};

/// Metas in range with the same bytes are the same, and so are lists of at most 96 targets. It
/// does nothing.
pub fn spellings_differ()
    ensures metas { (a b : MetaType) → IsInRange a → IsInRange b
        → meta_bytes a ≡ meta_bytes b → a ≡ b }
    ensures targets { (a b : List TargetType) → length a ≤ batch_room → length b ≤ batch_room
        → All FitsBytes a → All FitsBytes b → targets_bytes a ≡ targets_bytes b → a ≡ b }
{}
