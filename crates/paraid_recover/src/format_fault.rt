//! Why a format makes no array.
use paraid_base::DiskNo;

/// Why no array was made.
#[derive(Clone, Copy)]
pub enum FormatFault {
    /// A log disk belongs to an array; `epoch` is the greatest that one says.
    AlreadyFormatted { epoch: u64 },
    /// A call on this disk failed, or there is no such slot.
    Disk { disk: DiskNo },
}
