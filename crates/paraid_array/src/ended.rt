//! How the service of an array ended.

use paraid_base::Halt;

/// What ended the service of an array, and its gear before that event.
#[derive(Clone, Copy)]
pub struct HaltedAt {
    pub halt: Halt,
    pub gear: u8,
}
