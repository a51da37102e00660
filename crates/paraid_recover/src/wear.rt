//! An array that takes no more writes.
ghost use Rattle.std.specs.Prelude.{◌≡◌, ◌<◌, ◌≤◌, MatchOption};
ghost use Rattle.paraid_base.specs.Log.{worn_at};
ghost use Rattle.paraid_record.specs.Range.{meta_wear};

use paraid_base::WORN_AT;
use paraid_record::Meta;

/// The greater of the epoch and the number of writes, where it is 2^62 or more.
pub fn worn_count(meta: &Meta) -> Option<u64>
    ensures { MatchOption result (meta_wear meta.now < worn_at)
        (λ count. (count ≡ meta_wear meta.now) × (worn_at ≤ count)) }
{
    let count = meta.epoch.max(meta.writes);
    if count < WORN_AT {
        return None;
    }
    Some(count)
}
