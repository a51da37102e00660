//! The shortest list of bytes that a block repeats.
ghost use Rattle.std.specs.Prelude.{◌≡◌, ℕ, ◌<◌, ◌≤◌, List, length, take, false};
ghost use Rattle.paraid_trace.specs.BlockTexts.{is_period as is_period_of, period_of};
ghost use Rattle.paraid_trace.specs.Repeats.{Repeats};

use memchr::memchr;
use paraid_base::{BLOCK_SIZE, Block};

/// The length of the shortest list of bytes whose repetition, cut at 512, is the block: 1 to 512.
/// Only places of the first byte are tried.
pub fn period(block: &Block) -> usize
    ensures value { result ≡ period_of block.now.bytes }
    ensures low { 1 ≤ result }
    ensures high { result ≤ 512 }
    ensures repeats { Repeats (take result block.now.bytes) block.now }
    ensures least { (other : List ℕ) → 0 < length other → Repeats other block.now
        → result ≤ length other }
{
    let bytes = block.as_slice();
    let mut p = next_place(bytes, 1);
    while p < BLOCK_SIZE {
        if is_period(bytes, p) {
            return p;
        }
        p = next_place(bytes, p + 1);
    }
    BLOCK_SIZE
}

// The first place from `p` on where the first of 512 bytes stands again, or the end.
fn next_place(bytes: &[u8], p: usize) -> usize
    requires size { length bytes.now ≡ 512 }
    requires low { 1 ≤ p }
    requires within { p ≤ 512 }
    ensures low { p ≤ result }
    ensures within { result ≤ 512 }
    ensures passed { (q : ℕ) → p ≤ q → q < result → is_period_of bytes.now q ≡ false }
{
    if p < BLOCK_SIZE && bytes[p] == bytes[0] {
        return p;
    }
    match memchr(bytes[0], &bytes[p..]) {
        Some(more) => p + more,
        None => BLOCK_SIZE,
    }
}

// Whether 512 bytes are all the same. It looks at each, so that many are compared at once.
fn is_one_byte(bytes: &[u8]) -> bool
    requires { length bytes.now ≡ 512 }
    ensures { result ≡ is_period_of bytes.now 1 }
{
    let first = bytes[0];
    let mut is_one = true;
    for at in 0..BLOCK_SIZE {
        is_one = is_one & (bytes[at] == first);
    }
    is_one
}

// Whether each of 512 bytes, from place `p` on, is the one `p` places before it.
fn is_period(bytes: &[u8], p: usize) -> bool
    requires size { length bytes.now ≡ 512 }
    requires within { p < 512 }
    ensures { result ≡ is_period_of bytes.now p }
{
    if p == 1 {
        return is_one_byte(bytes);
    }
    bytes[p..] == bytes[..BLOCK_SIZE - p]
}
