//! What a log disk says, as a value.
ghost use Rattle.std.specs.Prelude.{◌≡◌, ◌<◌, ◌≤◌, length};
ghost use Rattle.paraid_base.specs.Log.{batch_room};
ghost use Rattle.paraid_record.specs.Range.{IsInRange};
ghost use Rattle.paraid_plain.specs.Props.{IsInRange-prop};

use paraid_base::DiskNo;
use paraid_record::{Meta, Targets};

/// What a log disk says: whether its gate is open, the meta, and the targets of the batch, whose
/// blocks stand in the log. Under a closed gate there is no target.
#[derive(Clone, Copy)]
pub struct Statement {
    pub disk: DiskNo,
    pub opened: bool,
    pub meta: Meta,
    pub targets: Targets,
    pub ghost log_disk: { disk < 2 },
    pub ghost in_range: { IsInRange meta } by { IsInRange-prop meta },
    pub ghost few: { targets.count ≤ batch_room },
    pub ghost long: { length targets.list ≡ batch_room },
}

/// The side of a log disk in short.
#[derive(Clone, Copy)]
pub enum Side {
    /// There is no disk.
    Absent,
    /// The gate is closed over zeros.
    Blank,
    /// The side is not well formed.
    Bad,
    /// The side is well formed, and says this.
    Formed { says: Statement },
}
