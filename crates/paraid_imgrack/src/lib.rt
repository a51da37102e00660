//! A rack over image files of the current folder: disk N is `disk-N.img`, and its power stands as
//! text in `disk-N.power`.
//!
//! Powers, sizes, counts of faults and what is unsynced are proved to be as a rack's contract says.
//! What the files hold is told by no clause: that a file keeps what was written to it is a premise.
#![tactic(auto)]

mod closed;
mod found;
mod fresh;
mod identity;
mod image;
mod label;
mod labelling;
mod power;
mod rack;
mod tail;

pub use closed::Closed;
pub use identity::Misfit;
pub use image::{Claim, Hindrance};
pub use label::{LABEL_SIZE, Label};
pub use rack::ImageRack;
