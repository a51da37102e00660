//! What each write of a sink leaves, done or failed.
ghost use Rattle.std.specs.Prelude.{◌≡◌, ℕ, ◌<◌, ◌≤◌, List, [], length, take, IfOk, OnOk, OnErr, Option};
ghost use Rattle.paraid_base.specs.Told.{GrowsByBytes, HasRisen};

use paraid_base::Failed;

/// Where bytes go to.
pub trait Sink {
    /// How often a call has failed. A count that has come to the end of its type stays there.
    ghost faults: { Self → ℕ };

    /// The bytes that were written, where they are told. What is told after a call was told before
    /// it.
    ghost written: { Self → Option (List ℕ) };

    /// Writes the first of these bytes, at least one, and says how many. `Failed` writes none.
    fn write_some(&mut self, bytes: &[u8]) -> Result<usize, Failed>
        requires { 0 < length bytes.now }
        ensures some { IfOk result (λ n. 0 < n) }
        ensures within { IfOk result (λ n. n ≤ length bytes.now) }
        ensures grows { IfOk result (λ n. GrowsByBytes (written self.old) (written self.new)
            (take n bytes.now)) }
        ensures keeps { OnErr result (GrowsByBytes (written self.old) (written self.new) []) }
        ensures later { faults self.old ≤ faults self.new }
        ensures still { IfOk result (λ n. faults self.new ≡ faults self.old) }
        ensures cause { OnErr result (HasRisen (faults self.old) (faults self.new)) };
}

/// Writes all of these bytes, by as many calls as it takes and none for an empty list. After
/// `Failed` a first part of them was written, and not the whole.
#[tactic(auto, using(crate::proofs::WriteLemmas::part_more, crate::proofs::WriteLemmas::part_within, crate::proofs::WriteLemmas::part_failed))]
pub fn write_all<K: Sink>(sink: &mut K, bytes: &[u8]) -> Result<(), Failed>
    ensures grows { OnOk result (GrowsByBytes (K.written sink.old) (K.written sink.new) bytes.now) }
    ensures part { OnErr result ((n : ℕ) × (n < length bytes.now)
        × GrowsByBytes (K.written sink.old) (K.written sink.new) (take n bytes.now)) }
    ensures none { bytes.now ≡ [] → sink.new ≡ sink.old }
    ensures later { K.faults sink.old ≤ K.faults sink.new }
    ensures still { OnOk result (K.faults sink.new ≡ K.faults sink.old) }
    ensures cause { OnErr result (HasRisen (K.faults sink.old) (K.faults sink.new)) }
{
    let mut done = 0;
    while done < bytes.len() {
        done += sink.write_some(&bytes[done..])?;
    }
    Ok(())
}
