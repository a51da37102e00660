//! Searches the bits of some disks in words of eight rows.

ghost use Rattle.std.specs.Prelude.{◌≡◌, ℕ, ◌-◌, ◌*◌, ◌^◌, ◌<◌, ◌≤◌, length, slice_index, false, IfSome, IfNone};
ghost use Rattle.paraid_dirty.specs.Bits.{bit_in, on_disks, AreClear, IsFirstBit};

use crate::bits::first_bit;
use paraid_base::DiskNo;

/// The byte with the bits of disks from `lo` to `hi - 1`.
fn mask(lo: DiskNo, hi: DiskNo) -> u8
    requires order { lo ≤ hi }
    requires high { hi ≤ 8 }
    ensures { result ≡ 2 ^ hi - 2 ^ lo }
{
    ((1u16 << hi) - (1u16 << lo)) as u8
}

/// The word with the bits of disks from `lo` to `hi - 1` in each of its eight rows.
pub fn pattern(lo: DiskNo, hi: DiskNo) -> u64
    requires order { lo ≤ hi }
    requires high { hi ≤ 8 }
    ensures { result ≡ (2 ^ hi - 2 ^ lo) * 72340172838076673 }
{
    mask(lo, hi) as u64 * 0x0101_0101_0101_0101
}

/// The first bit of some disks that is set at or after `from`, in the words before `until`.
fn first_before(words: &[u64], from: usize, until: usize, lo: DiskNo, hi: DiskNo) -> Option<usize>
    requires order { lo ≤ hi }
    requires high { hi ≤ 8 }
    requires until { until ≤ length words.now }
    requires few { length words.now ≤ 8192 }
    ensures some { IfSome result (IsFirstBit (on_disks lo hi (bit_in words.now)) from) }
    ensures within { IfSome result (λ at. at < 64 * until) }
    ensures none { IfNone result (AreClear (on_disks lo hi (bit_in words.now)) from (64 * until)) }
{
    let pattern = pattern(lo, hi);
    for at in from / 64..until {
        let low = from.saturating_sub(64 * at) as u32;
        if let Some(i) = first_bit(words[at] & pattern, low) {
            return Some(64 * at + i as usize);
        }
    }
    None
}

/// The first bit of some disks that is set at or after `from`. Words without a mark are 0, and 64
/// of them are passed over at once.
pub fn first_on_disks(
    words: &[u64],
    marks: &[u64],
    from: usize,
    lo: DiskNo,
    hi: DiskNo,
) -> Option<usize>
    requires order { lo ≤ hi }
    requires high { hi ≤ 8 }
    requires few { length words.now ≤ 8192 }
    requires marks { length marks.now ≤ 128 }
    requires room { length words.now ≤ 64 * length marks.now }
    requires marked { (w : ℕ) → bit_in marks.now w ≡ false → slice_index words.now w ≡ 0 }
    ensures some { IfSome result (IsFirstBit (on_disks lo hi (bit_in words.now)) from) }
    ensures within { IfSome result (λ at. at < 64 * length words.now) }
    ensures none { IfNone result
        (AreClear (on_disks lo hi (bit_in words.now)) from (64 * length words.now)) }
{
    for part in from / 4096..marks.len() {
        if marks[part] != 0 {
            let start = from.max(4096 * part);
            let until = words.len().min(64 * part + 64);
            if let Some(at) = first_before(words, start, until, lo, hi) {
                return Some(at);
            }
        }
    }
    None
}
