//! Where each block, each cell, each copy and each part of a disk lies.
//!
//! A row has one cell on each disk, one of them its parity. In a gear the cells of the disks
//! from the gear on have copies in stripes on the disks below it. Every answer is the
//! value that the definitions of `paraid_base` give, and says with it that the way back leads
//! to the same block or cell; `laws` says that no two things lie in one place.
#![tactic(auto)]

mod cell;
mod index;
pub mod laws;
mod place;
mod soft;

pub use cell::{block_at, home, parity_disk};
pub use index::index_among;
pub use place::{hard_place, soft_place};
pub use soft::{cell_at, soft_of, soft_parity};
