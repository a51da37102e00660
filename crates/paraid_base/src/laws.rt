//! Each law is the contract of a function that does nothing.

ghost use Rattle.std.specs.Prelude.{◌≡◌, ℕ, ◌+◌, ◌*◌, ◌<◌, ◌≤◌, length};
ghost use Rattle.paraid_base.specs.declared.pairs.Pairs.{Pairs as PairsType};
ghost use Rattle.paraid_base.specs.Pairs.{pairs_of, pairs_with};
ghost use Rattle.paraid_base.specs.History.{Entry};
ghost use Rattle.paraid_base.specs.Log.{batch_room, body_place, list_place, log_groups, log_least, log_most, map_block_place, map_start};

use crate::Geometry;

/// Values with the same pairs are equal, and each entry of one to eight pairs has a value.
pub fn pairs_decide_a_value()
    ensures one { (p q : PairsType) → pairs_of p ≡ pairs_of q → p ≡ q }
    ensures value { (e : Entry) → 1 ≤ length e → length e ≤ 8 → pairs_of (pairs_with e) ≡ e }
{}

/// A log is the gate, two metas, the lists of a batch and their blocks, in this order, and the
/// dirty map starts behind it: each list has 96 targets, and no two things have one place.
pub fn log_lies_before_map(g: &Geometry)
    ensures start { map_start g.now ≡ 3 + 97 * log_groups g.now }
    ensures least { log_least ≤ map_start g.now }
    ensures most { map_start g.now ≤ log_most }
    ensures room { batch_room ≡ 96 * log_groups g.now }
    ensures lists { (j k : ℕ) → j < log_groups g.now → (3 ≤ list_place j)
        × (list_place j < body_place k) }
    ensures bodies { (k : ℕ) → k < batch_room → body_place k < map_start g.now }
    ensures one_list { (j k : ℕ) → list_place j ≡ list_place k → j ≡ k }
    ensures one_body { (j k : ℕ) → body_place j ≡ body_place k → j ≡ k }
    ensures map_blocks { (j : ℕ) → map_block_place g.now j ≡ map_start g.now + j }
{}
