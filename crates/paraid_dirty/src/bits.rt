//! Bits in words of 64, the lowest first.

ghost use Rattle.std.specs.Prelude.{◌≡◌, ◌≢◌, ℕ, ◌/◌, ◌<◌, ◌≤◌, ◌==◌, length, slice_index, true, false, if◌then◌else◌, IfSome, IfNone};
ghost use Rattle.paraid_dirty.specs.Bits.{bit_of, bit_in, AreClear, IsFirstBit};

/// The first bit of a word that is set, at or after `from`.
pub fn first_bit(word: u64, from: u32) -> Option<u32>
    requires { from < 64 }
    ensures some { IfSome result (IsFirstBit (bit_of word) from) }
    ensures within { IfSome result (λ i. i < 64) }
    ensures none { IfNone result (AreClear (bit_of word) from 64) }
{
    let rest = word & (u64::MAX << from);
    if rest == 0 {
        None
    } else {
        Some(rest.trailing_zeros())
    }
}

/// Whether a bit is set.
pub fn has_bit(words: &[u64], at: usize) -> bool
    requires { at / 64 < length words.now }
    ensures { result ≡ bit_in words.now at }
{
    words[at / 64] >> (at % 64) & 1 == 1
}

/// Sets a bit.
pub fn set_bit(words: &mut [u64], at: usize)
    requires { at / 64 < length words.old }
    ensures length { length words.new ≡ length words.old }
    ensures bits { (k : ℕ) → bit_in words.new k ≡ (if k == at then true else bit_in words.old k) }
    ensures others { (w : ℕ) → w ≢ at / 64 → slice_index words.new w ≡ slice_index words.old w }
{
    words[at / 64] |= 1 << (at % 64);
}

/// Clears a bit.
pub fn clear_bit(words: &mut [u64], at: usize)
    requires { at / 64 < length words.old }
    ensures length { length words.new ≡ length words.old }
    ensures bits { (k : ℕ) → bit_in words.new k ≡ (if k == at then false else bit_in words.old k) }
    ensures lower { (w : ℕ) → slice_index words.new w ≤ slice_index words.old w }
{
    words[at / 64] &= !(1 << (at % 64));
}
