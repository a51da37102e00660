//! Finding a newline, and making room behind the bytes that are kept.
ghost use Rattle.std.specs.Prelude.{◌≡◌, ◌+◌, ◌-◌, ◌<◌, ◌≤◌, ◌∷◌, ◌++◌, length, take, drop, MatchOption};
ghost use Rattle.paraid_io.specs.Lines.{NoNewline};

use memchr::memchr;

/// There is room for so many bytes at each call of a source, unless fewer may be taken.
pub(crate) const PIECE: usize = 4096;

// Where the first newline stands.
pub(crate) fn newline_at(bytes: &[u8]) -> Option<usize>
    ensures { MatchOption result (NoNewline bytes.now) (λ k. (k < length bytes.now)
        × NoNewline (take k bytes.now)
        × (bytes.now ≡ take k bytes.now ++ 10 ∷ drop (k + 1) bytes.now)) }
{
    memchr(b'\n', bytes)
}

// Where the bytes from `start` to `end` stand then, with room for a piece behind them. They are
// moved to the front only where there is less room.
pub(crate) fn make_room(buffer: &mut [u8], start: usize, end: usize) -> usize
    requires in_order { start ≤ end }
    requires within { end ≤ length buffer.old }
    requires few { (end - start) + PIECE ≤ length buffer.old }
    ensures room { result + (end - start) + PIECE ≤ length buffer.old }
    ensures same { take (end - start) (drop result buffer.new)
        ≡ take (end - start) (drop start buffer.old) }
{
    if PIECE <= buffer.len() - end {
        return start;
    }
    buffer.copy_within(start..end, 0);
    0
}
