//! Tests of the lower crates, of the definitions of an image and of a commit, and of the crates
//! that stand beside the array, as tables of values from outside: worked by hand from the formats
//! and the formulas, or taken from another program. What a clause says of all inputs is not tried
//! again.
#![tactic(auto)]

#[cfg(test)]
mod batches;
#[cfg(test)]
mod commits;
#[cfg(test)]
mod device;
#[cfg(test)]
mod dirty;
#[cfg(test)]
mod image_labels;
#[cfg(test)]
mod image_racks;
#[cfg(test)]
mod images;
#[cfg(test)]
mod lines;
#[cfg(test)]
mod memory_racks;
#[cfg(test)]
mod nbd;
#[cfg(test)]
mod plans;
#[cfg(test)]
mod racks;
#[cfg(test)]
mod spares;
#[cfg(test)]
mod sums;
#[cfg(test)]
mod traces;
#[cfg(test)]
mod volumes;
#[cfg(test)]
mod windows;
