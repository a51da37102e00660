//! An array in service as a block device.
//!
//! What is asked of the device is an event of the array's session. So the calls of a device lead
//! from each point at which the array stood to one at which it stands then, by the events that the
//! device kept, and each stop leaves what a session promises.
#![tactic(auto)]

mod ask;
mod device;

pub use device::Device;
