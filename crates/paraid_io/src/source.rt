//! What each read of a source gives, done or failed.
ghost use Rattle.std.specs.Prelude.{◌≡◌, ◌≢◌, ℕ, ◌<◌, ◌≤◌, List, [], length, take, IfOk, OnErr, Option, IsSome};
ghost use Rattle.paraid_base.specs.Told.{told_bytes, Gives, AtEnd, HasRisen};

use paraid_base::Failed;

/// Where bytes come from.
pub trait Source {
    /// How often a call has failed. A count that has come to the end of its type stays there.
    ghost faults: { Self → ℕ };

    /// The bytes that are left, where they are told. What is told after a call was told before it.
    ghost left: { Self → Option (List ℕ) };

    /// Takes the first of the bytes that are left: at least one, and at most as many as `into` has
    /// room for. `Ok(0)` is the end of the input, and where it is told, it comes exactly where
    /// nothing is left. `Failed` leaves what is left as it was.
    fn read_some(&mut self, into: &mut [u8]) -> Result<usize, Failed>
        requires { 0 < length into.old }
        ensures within { IfOk result (λ n. n ≤ length into.old) }
        ensures gives { IfOk result (λ n. Gives (left self.old) (left self.new) (take n into.new)) }
        ensures end { IfOk result (λ n. n ≡ 0 → AtEnd (left self.new)) }
        ensures some { IfOk result (λ n. IsSome (left self.new)
            → told_bytes (left self.old) ≢ [] → 0 < n) }
        ensures keeps { OnErr result (Gives (left self.old) (left self.new) []) }
        ensures later { faults self.old ≤ faults self.new }
        ensures still { IfOk result (λ n. faults self.new ≡ faults self.old) }
        ensures cause { OnErr result (HasRisen (faults self.old) (faults self.new)) };
}
