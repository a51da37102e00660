//! The commit, through which all that an array keeps is written: whole or absent at every stop; and
//! its resumption after one.
//!
//! `Store` owns the disks. `Store::commit` lays a `Batch` and a meta over them, and
//! `Store::resume` ends what a stop left half done. What images of the disks stand for is said by
//! the definitions of `paraid_image`.
#![tactic(auto)]

mod batch;
mod bearing;
mod calls;
mod commit;
mod gates;
pub mod laws;
mod losses;
mod ready;
mod resume;
mod store;
mod sync;
mod witness;

pub use batch::{Batch, Full};
pub use gates::{gate, opens};
pub use resume::ResumeRefused;
pub use store::{Lost, Store};
