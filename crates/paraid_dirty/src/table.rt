//! The dirty table: bits in words of eight rows, with a mark for each word that may have one set.
ghost use Rattle.std.specs.Prelude.{◌≡◌, ◌⊎◌, ℕ, ◌+◌, ◌*◌, ◌/◌, ◌<◌, ◌≤◌, length, true, false, slice_index, IfOk, IfSome, IfNone};
ghost use Rattle.paraid_dirty.specs.Bits.{bit_of, bit_in};
ghost use Rattle.paraid_dirty.specs.Table.{is_dirty, table_with_bit, dirty_count, IsClean, IsCleanFrom, IsFirstDirty, IsFirstFrom, ShowsBits};

use crate::bits::{clear_bit, has_bit, set_bit};
use crate::search::{first_on_disks, pattern};
use paraid_base::{Block, DiskNo, NoMemory, Row};
use std::alloc::Global;
use std::marker::Model;

/// Which cells of an array are dirty, for up to 65,536 rows and eight disks.
///
/// It is seen as a list of rows, each a list of eight bits. Eight rows stand in a word, and a mark
/// of one bit tells which words have a dirty cell, so that a search passes 512 clean rows at once.
#[derive(Drop)]
pub struct DirtyTable {
    words: Vec<u64>,
    marks: Vec<u64>,
    rows: u32,
}

impl Model for DirtyTable {
    ghost use Rattle.std.specs.Prelude.{List, Bool};
    ghost use Rattle.paraid_dirty.specs.Table.{rows_of, IsDirtyTable};

    ghost Value = { List (List Bool) };

    ghost view = { λ t. rows_of t.words.items t.rows };

    ghost invariant = { λ t. IsDirtyTable t.words.items t.marks.items t.rows };
}

/// Takes the mark of a word away if the word is 0.
fn unmark(marks: &mut [u64], at: usize, word: u64)
    requires { at / 64 < length marks.old }
    ensures length { length marks.new ≡ length marks.old }
    ensures marks { (w : ℕ) → bit_in marks.new w ≡ false
        → (bit_in marks.old w ≡ false) ⊎ ((w ≡ at) × (word ≡ 0)) }
{
    if word == 0 {
        clear_bit(marks, at);
    }
}

impl DirtyTable {
    /// A table of `rows` rows, all clean. It takes about `rows` bytes.
    pub fn new(alloc: Global, rows: u32) -> Result<DirtyTable, NoMemory>
        requires { rows ≤ 65536 }
        ensures rows { IfOk result (λ table. length table ≡ rows) }
        ensures clean { IfOk result (λ table. (r d : ℕ) → is_dirty table r d ≡ false) }
    {
        let count = rows.div_ceil(8) as usize;
        let Ok(words) = vec![in alloc; 0u64; count] else {
            return Err(NoMemory);
        };
        let Ok(marks) = vec![in alloc; 0u64; count.div_ceil(64)] else {
            return Err(NoMemory);
        };
        Ok(DirtyTable { words, marks, rows })
    }

    /// The number of rows, at most 65,536.
    pub fn rows(&self) -> u32
        ensures value { result ≡ length self.now }
        ensures small { result ≤ 65536 }
    {
        self.rows
    }

    /// Makes the cell of row `r` and disk `d` dirty.
    pub fn set(&mut self, r: Row, d: DiskNo)
        requires row { r < length self.old }
        requires disk { d < 8 }
        ensures rows { length self.new ≡ length self.old }
        ensures cells { (q e : ℕ)
            → is_dirty self.new q e ≡ table_with_bit (is_dirty self.old) r d true q e }
    {
        set_bit(&mut self.words, 8 * r as usize + d as usize);
        set_bit(&mut self.marks, r as usize / 8);
    }

    /// Makes the cell of row `r` and disk `d` clean.
    pub fn clear(&mut self, r: Row, d: DiskNo)
        requires row { r < length self.old }
        requires disk { d < 8 }
        ensures rows { length self.new ≡ length self.old }
        ensures cells { (q e : ℕ)
            → is_dirty self.new q e ≡ table_with_bit (is_dirty self.old) r d false q e }
    {
        clear_bit(&mut self.words, 8 * r as usize + d as usize);
        let at = r as usize / 8;
        let word = self.words[at];
        unmark(&mut self.marks, at, word);
    }

    /// Makes the cell of row `r` and disk `d` dirty or clean.
    pub fn put(&mut self, r: Row, d: DiskNo, dirty: bool)
        requires row { r < length self.old }
        requires disk { d < 8 }
        ensures rows { length self.new ≡ length self.old }
        ensures cells { (q e : ℕ)
            → is_dirty self.new q e ≡ table_with_bit (is_dirty self.old) r d dirty q e }
    {
        if dirty {
            self.set(r, d);
            return;
        }
        self.clear(r, d);
    }

    /// Whether the cell of row `r` and disk `d` is dirty.
    pub fn has(&self, r: Row, d: DiskNo) -> bool
        requires row { r < length self.now }
        requires disk { d < 8 }
        ensures { result ≡ is_dirty self.now r d }
    {
        has_bit(&self.words, 8 * r as usize + d as usize)
    }

    /// The bits of row `r`, the lowest for disk 0.
    pub fn row(&self, r: Row) -> u8
        requires { r < length self.now }
        ensures { (d : ℕ) → bit_of result d ≡ is_dirty self.now r d }
    {
        (self.words[r as usize / 8] >> (8 * (r % 8)) & 255) as u8
    }

    /// The number of dirty cells on disks from `lo` to `hi - 1`.
    pub fn count(&self, lo: DiskNo, hi: DiskNo) -> u32
        requires order { lo ≤ hi }
        requires high { hi ≤ 8 }
        ensures { result ≡ dirty_count (is_dirty self.now) (length self.now) lo hi }
    {
        let pattern = pattern(lo, hi);
        let mut count = 0;
        for at in 0..self.words.len() {
            count += (self.words[at] & pattern).count_ones();
        }
        count
    }

    /// The first dirty cell, by row and then by disk, on disks from `lo` to `hi - 1`.
    pub fn next(&self, lo: DiskNo, hi: DiskNo) -> Option<(Row, DiskNo)>
        requires order { lo ≤ hi }
        requires high { hi ≤ 8 }
        ensures none { IfNone result (IsClean (is_dirty self.now) lo hi) }
        ensures first { IfSome result (λ cell.
            IsFirstDirty (is_dirty self.now) lo hi cell.0 cell.1) }
        ensures within { IfSome result (λ cell. cell.0 < length self.now) }
    {
        self.next_from(0, 0, lo, hi)
    }

    /// From the cell of row `r` and disk `d` on, the first dirty one, by row and then by disk, on
    /// disks from `lo` to `hi - 1`.
    pub fn next_from(&self, r: Row, d: DiskNo, lo: DiskNo, hi: DiskNo) -> Option<(Row, DiskNo)>
        requires disk { d ≤ 8 }
        requires order { lo ≤ hi }
        requires high { hi ≤ 8 }
        ensures none { IfNone result (IsCleanFrom (is_dirty self.now) r d lo hi) }
        ensures first { IfSome result (λ cell.
            IsFirstFrom (is_dirty self.now) r d lo hi cell.0 cell.1) }
        ensures within { IfSome result (λ cell. cell.0 < length self.now) }
    {
        let from = 8 * r as usize + d as usize;
        match first_on_disks(&self.words, &self.marks, from, lo, hi) {
            Some(at) => Some(((at / 8) as u32, (at % 8) as u8)),
            None => None,
        }
    }

    /// Writes block `j` of the map: the bits of 512 rows, one row a byte.
    pub fn map_block(&self, j: u32, into: &mut Block)
        ensures { ShowsBits into.new j (is_dirty self.now) }
    {
        let mut bytes = [0; 512];
        for at in 0..64 {
            let eight = self.eight_rows(64 * j as usize + at);
            bytes[8 * at..8 * at + 8].copy_from_slice(&eight);
        }
        *into = Block::from_array(bytes);
    }

    /// The bits of eight rows from `8 * at` on, one row a byte, none past the table.
    fn eight_rows(&self, at: usize) -> [u8; 8]
        ensures length { length result ≡ 8 }
        ensures bits { (k d : ℕ)
            → k < 8 → bit_of (slice_index result k) d ≡ is_dirty self.now (8 * at + k) d }
    {
        if at < self.words.len() {
            self.words[at].to_le_bytes()
        } else {
            [0; 8]
        }
    }
}
