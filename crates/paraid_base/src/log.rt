//! The numbers of `specs/Log.antt`, for code.
use crate::{DiskNo, Place};

/// The place of a log disk's gate.
pub const GATE: Place = 0;

/// The place of the meta that a closed gate stands over.
pub const META: Place = 1;

/// The place of the meta of a batch.
pub const BATCH_META: Place = 2;

/// The place of the first list of a batch's targets.
pub const FIRST_LIST: Place = 3;

/// The place of the block for the first target of a batch.
pub const FIRST_BODY: Place = 4;

/// The most targets of a batch.
pub const BATCH_ROOM: usize = 96;

/// The first place past the log, where the dirty map starts.
pub const MAP_START: Place = 100;

/// The last place of the log.
pub const LOG_LAST: Place = MAP_START - 1;

/// The disk that bears witness against log disks, at the places 0 and 1.
pub const WITNESS_DISK: DiskNo = 2;

/// So many commits or writes, the greater of the two, and an array takes no more.
pub const WORN_AT: u64 = 1 << 62;
