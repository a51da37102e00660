//! A plain program, slow and obvious, over an image of the disks in memory. It answers what the
//! definitions of `paraid_image` say of an image: which log disk stands, the value of a cell, and
//! whether the image holds a history. Each call's contract is such a definition, so that tests
//! can compare every other body with it. It makes no device call and takes no memory but for the
//! image itself.
#![tactic(auto)]

mod clean;
mod disks;
mod filled;
mod history;
mod image;
pub mod laws;
mod log;
mod map;
mod pairing;
mod rebuilt;
mod rows;
mod same;
mod side;
mod sound;
mod standing;
mod statement;
mod stripes;
mod value;
mod view;
mod witness;

pub use history::block_after;
pub use image::{Image, ImageSlot};
pub use side::{side_of, statement_of};
pub use sound::is_sound;
pub use standing::standing_of;
pub use statement::{Side, Statement};
pub use value::{block_of, value_of};
pub use view::{content, is_dirty, out_of};
