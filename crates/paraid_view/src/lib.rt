//! The value of a cell, with all that is staged laid over, wherever it lives and whichever one disk
//! is out.
#![tactic(auto)]

mod cell;
mod draft;
mod laid;
mod spot;

pub use cell::{is_at, read_cell, read_others, read_value};
pub use draft::Draft;
pub use laid::{read_laid, read_rest};
