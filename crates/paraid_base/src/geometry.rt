//! The shape of an array: only shapes that an array may have are values.
ghost use Rattle.std.specs.Prelude.{◌≡◌, ℕ, ◌<◌, ◌≤◌, length, slice_index_or, true, false};

use crate::{MAP_START, Place};

/// The shape of an array: how many disks and rows it has, and its gears.
///
/// A gear is a number of powered disks. The gears are kept as flags, one for each number from
/// 0 to 8, so that a geometry has one spelling.
#[derive(Clone, Copy)]
pub struct Geometry {
    /// The number of disks, 3 to 8.
    pub disks: u8,
    /// The number of rows, 1 to 65,536.
    pub rows: u32,
    /// Whether a number is a gear.
    pub gears: [bool; 9],
    pub ghost disks_low: { 3 ≤ disks },
    pub ghost disks_high: { disks ≤ 8 },
    pub ghost rows_low: { 1 ≤ rows },
    pub ghost rows_high: { rows ≤ 65536 },
    pub ghost long: { length gears ≡ 9 },
    pub ghost gears_low: { (a : ℕ) → slice_index_or gears a false ≡ true → 3 ≤ a },
    pub ghost gears_high: { (a : ℕ) → slice_index_or gears a false ≡ true → a ≤ disks },
    pub ghost last: { slice_index_or gears disks false ≡ true },
}

/// Why there is no such geometry. They are tested in this order.
#[derive(Clone, Copy)]
pub enum GeoFault {
    /// The number of disks is not 3 to 8.
    Disks { value: u8 },
    /// The number of rows is not 1 to 65,536.
    Rows { value: u32 },
    /// The place in the list of the first member that is below 3, above the number of disks or not
    /// greater than the one before it; or the length of the list, where the last member is not the
    /// number of disks.
    Gears { at: u8 },
}

impl Geometry {
    ghost use Rattle.std.specs.Prelude.{IfOk, IfErr, MatchOption};
    ghost use Rattle.paraid_base.specs.Gears.{IsGeoFault, IsGearList, AreFlagsOf};
    ghost use Rattle.paraid_base.specs.Log.{map_start as map_start_of};
    ghost use Rattle.paraid_base.specs.Soft.{stripe_count};
    ghost use Rattle.paraid_base.specs.Regions.{IsGear, array_blocks, map_count, disk_size, soft_start as soft_start_of};

    /// The geometry of so many disks and rows with these gears, which ascend and end with the
    /// number of disks. An empty list of gears is refused at 0.
    pub fn new(disks: u8, rows: u32, gears: &[u8]) -> Result<Geometry, GeoFault>
        ensures numbers { IfOk result (λ g. (g.disks ≡ disks) × (g.rows ≡ rows)) }
        ensures gears { IfOk result (λ g. IsGearList disks gears.now
            × AreFlagsOf gears.now (length gears.now) g.gears) }
        ensures err { IfErr result (IsGeoFault disks rows gears.now) }
    {
        if disks < 3 || disks > 8 {
            return Err(GeoFault::Disks { value: disks });
        }
        if rows < 1 || rows > 65536 {
            return Err(GeoFault::Rows { value: rows });
        }
        let mut flags = [false; 9];
        let mut last = 2;
        for at in 0..gears.len() {
            let gear = gears[at];
            if gear <= last || gear > disks {
                return Err(GeoFault::Gears { at: at as u8 });
            }
            flags[gear as usize] = true;
            last = gear;
        }
        if last != disks {
            return Err(GeoFault::Gears {
                at: gears.len() as u8,
            });
        }
        Ok(Geometry {
            disks,
            rows,
            gears: flags,
        })
    }

    /// The number of disks, 3 to 8.
    pub fn disks(&self) -> u8
        ensures { result ≡ self.now.disks }
    {
        self.disks
    }

    /// The number of rows, 1 to 65,536.
    pub fn rows(&self) -> u32
        ensures { result ≡ self.now.rows }
    {
        self.rows
    }

    /// The number of blocks of the array: each row holds one for each disk but its parity disk.
    pub fn blocks(&self) -> u32
        ensures { result ≡ array_blocks self.now }
    {
        self.rows * (self.disks as u32 - 1)
    }

    /// The first place past the log, where the dirty map starts.
    pub fn map_start(&self) -> Place
        ensures { result ≡ map_start_of self.now }
    {
        MAP_START
    }

    /// The number of blocks of the dirty map, which has one byte for each row.
    pub fn map_blocks(&self) -> u32
        ensures { result ≡ map_count self.now }
    {
        (self.rows + 511) / 512
    }

    /// The number of blocks that each disk needs.
    pub fn size(&self) -> u32
        ensures { result ≡ disk_size self.now }
    {
        self.soft_start(self.disks + 1)
    }

    /// Whether a number is a gear.
    pub fn is_gear(&self, a: u8) -> bool
        ensures { result ≡ slice_index_or self.now.gears a false }
    {
        a < 9 && self.gears[a as usize]
    }

    /// The number of stripes of the region of gear `a`, 0 where `a` is the number of disks.
    pub fn stripes(&self, a: u8) -> u32
        requires { IsGear self.now a }
        ensures { result ≡ stripe_count self.now.disks self.now.rows a }
    {
        (self.rows * (self.disks - a) as u32 + (a as u32 - 2)) / (a as u32 - 1)
    }

    /// The place where the region of gear `a` begins, after the regions of lower gears. (So the
    /// place of a stripe in it fits its type: the largest array needs 403,276 blocks a disk.)
    pub fn soft_start(&self, a: u8) -> u32
        requires { a ≤ 9 }
        ensures start { result ≡ soft_start_of self.now a }
        ensures small { result < 5000000 }
    {
        let mut start = self.map_start() + self.map_blocks() + self.rows;
        for e in 0..a {
            if self.is_gear(e) {
                start += self.stripes(e);
            }
        }
        start
    }

    /// The next lower gear, if there is one.
    pub fn lower(&self, a: u8) -> Option<u8>
        requires { a ≤ self.now.disks }
        ensures { MatchOption result
            ((e : ℕ) → e < a → slice_index_or self.now.gears e false ≡ false)
            (λ b. (b < a) × IsGear self.now b
            × ((e : ℕ) → b < e → e < a → slice_index_or self.now.gears e false ≡ false)) }
    {
        // (the proof has the bound of a number that is read)
        let _disks = self.disks;
        for e in (0..a).rev() {
            if self.gears[e as usize] {
                return Some(e);
            }
        }
        None
    }

    /// The next higher gear, if there is one.
    pub fn higher(&self, a: u8) -> Option<u8>
        requires { a ≤ self.now.disks }
        ensures { MatchOption result
            ((e : ℕ) → a < e → slice_index_or self.now.gears e false ≡ false)
            (λ b. (a < b) × IsGear self.now b
            × ((e : ℕ) → a < e → e < b → slice_index_or self.now.gears e false ≡ false)) }
    {
        for e in a + 1..self.disks + 1 {
            if self.gears[e as usize] {
                return Some(e);
            }
        }
        None
    }
}
