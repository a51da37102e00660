//! That the ways there and back agree, and that no two things lie in one place.
//!
//! Each law is the contract of a function that does nothing. Its numbers range over all natural
//! numbers, so each bound that it needs is one of its premises: `n` disks, `rows` rows, gear `a`.
ghost use Rattle.std.specs.Prelude.{◌≡◌, ◌≢◌, ℕ, ◌+◌, ◌-◌, ◌*◌, ◌%◌, ◌<◌, ◌≤◌};
ghost use Rattle.paraid_base.specs.Cells.{parity_disk, home_row, home_disk, cell_block};
ghost use Rattle.paraid_base.specs.Log.{map_start};
ghost use Rattle.paraid_base.specs.Regions.{IsGear, disk_size, hard_place_of, map_count, map_place_of, soft_place_of};
ghost use Rattle.paraid_base.specs.Skips.{skip};
ghost use Rattle.paraid_base.specs.Soft.{number_at, row_of_number, disk_of_number, soft_stripe, soft_index, soft_disk, soft_parity_disk, stripe_count};
ghost use Rattle.paraid_layout.specs.Pads.{IsPad};

use paraid_base::Geometry;

/// Each block has a home, a cell that is no parity, and each such cell is the home of a block.
pub fn blocks_match_cells()
    ensures row_in { (n rows b : ℕ) → 2 ≤ n → b < rows * (n - 1) → home_row n b < rows }
    ensures disk_in { (n b : ℕ) → 2 ≤ n → home_disk n b < n }
    ensures not_parity { (n b : ℕ) → home_disk n b ≢ parity_disk n (home_row n b) }
    ensures block_in { (n rows r d : ℕ) → 2 ≤ n → r < rows → d < n → d ≢ parity_disk n r
        → cell_block n r d < rows * (n - 1) }

    ensures block_back { (n b : ℕ) → cell_block n (home_row n b) (home_disk n b) ≡ b }
    ensures row_back { (n r d : ℕ) → 2 ≤ n → d < n → d ≢ parity_disk n r
        → home_row n (cell_block n r d) ≡ r }
    ensures disk_back { (n r d : ℕ) → 2 ≤ n → d < n → d ≢ parity_disk n r
        → home_disk n (cell_block n r d) ≡ d }
{}

/// A row's blocks and its parity lie on different disks.
pub fn rows_use_different_disks()
    ensures blocks { (n b c : ℕ) → home_row n b ≡ home_row n c → home_disk n b ≡ home_disk n c
        → b ≡ c }
    ensures parity { (n r b : ℕ) → home_row n b ≡ r → home_disk n b ≢ parity_disk n r }
    ensures parity_in { (n r : ℕ) → 0 < n → parity_disk n r < n }
{}

/// In gear `a` each cell of the disks from `a` on has a copy in a stripe, and each index of a
/// stripe that is no pad has a cell.
pub fn cells_match_copies()
    ensures stripe_in { (n rows a r d : ℕ) → 2 ≤ a → a ≤ d → d < n → r < rows
        → soft_stripe n a r d < stripe_count n rows a }
    ensures index_in { (n a r d : ℕ) → 2 ≤ a → soft_index n a r d < a - 1 }
    ensures row_in { (n rows a s i : ℕ) → a < n → number_at a s i < rows * (n - a)
        → row_of_number n a (number_at a s i) < rows }
    ensures parked { (n a s i : ℕ) → a ≤ disk_of_number n a (number_at a s i) }
    ensures disk_in { (n a s i : ℕ) → a < n → disk_of_number n a (number_at a s i) < n }

    ensures cell_back { (n a r d : ℕ) → a ≤ d → d < n
        → let number = number_at a (soft_stripe n a r d) (soft_index n a r d) in
        (row_of_number n a number ≡ r) × (disk_of_number n a number ≡ d) }
    ensures index_back { (n a s i : ℕ) → a < n → i < a - 1
        → let row = row_of_number n a (number_at a s i) in
        let disk = disk_of_number n a (number_at a s i) in
        (soft_stripe n a row disk ≡ s) × (soft_index n a row disk ≡ i) }
{}

/// The blocks of a stripe and its parity lie on different disks below the gear.
pub fn stripes_use_different_disks()
    ensures indexes { (a s i j : ℕ)
        → skip (soft_parity_disk a s) i ≡ skip (soft_parity_disk a s) j → i ≡ j }
    ensures parity { (a s i : ℕ) → skip (soft_parity_disk a s) i ≢ soft_parity_disk a s }
    ensures index_below { (a s i : ℕ) → i < a - 1 → skip (soft_parity_disk a s) i < a }
    ensures parity_below { (a s : ℕ) → 1 ≤ a → soft_parity_disk a s < a }

    // Two cells with a copy on one disk in one stripe are one cell.
    ensures cells { (n a r d q e : ℕ) → a ≤ d → d < n → a ≤ e → e < n
        → soft_stripe n a r d ≡ soft_stripe n a q e → soft_disk n a r d ≡ soft_disk n a q e
        → (r ≡ q) × (d ≡ e) }
{}

/// No cell has its copy in a pad, and only the last stripe has pads.
pub fn pads_are_last()
    ensures empty { (n rows a s i r d : ℕ) → IsPad n rows a s i → a ≤ d → d < n → r < rows
        → soft_stripe n a r d ≡ s → soft_index n a r d ≢ i }
    ensures last { (n rows a s i : ℕ) → 2 ≤ a → i < a - 1 → IsPad n rows a s i
        → stripe_count n rows a ≤ s + 1 }
{}

/// A disk is the log at places 0 to 99, the map, the hard blocks and the regions of the gears, in
/// this order, and nothing of it reaches past the disk's size.
pub fn parts_lie_apart(g: &Geometry)
    ensures map { (r : ℕ) → r < g.now.rows → (map_start g.now ≤ map_place_of g.now r)
        × (map_place_of g.now r < map_start g.now + map_count g.now) }
    ensures hard { (r : ℕ)
        → r < g.now.rows → (map_start g.now + map_count g.now ≤ hard_place_of g.now r)
        × (hard_place_of g.now r < map_start g.now + map_count g.now + g.now.rows) }
    ensures soft { (a s : ℕ) → IsGear g.now a → s < stripe_count g.now.disks g.now.rows a
        → (map_start g.now + map_count g.now + g.now.rows ≤ soft_place_of g.now a s)
        × (soft_place_of g.now a s < disk_size g.now) }
    ensures size { map_start g.now + map_count g.now + g.now.rows ≤ disk_size g.now }

    // Two rows with one byte of the map, or with one hard place, are one row.
    ensures map_bytes { (q r : ℕ) → map_place_of g.now q ≡ map_place_of g.now r
        → q % 512 ≡ r % 512 → q ≡ r }
    ensures hard_blocks { (q r : ℕ) → hard_place_of g.now q ≡ hard_place_of g.now r → q ≡ r }

    // Two stripes, of one gear or of two, with one place are one stripe.
    ensures stripes { (a b s t : ℕ) → IsGear g.now a → IsGear g.now b
        → s < stripe_count g.now.disks g.now.rows a → t < stripe_count g.now.disks g.now.rows b
        → soft_place_of g.now a s ≡ soft_place_of g.now b t → (a ≡ b) × (s ≡ t) }
{}
