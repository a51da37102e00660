//! What a commit knows of the witnesses.
ghost use Rattle.std.specs.Prelude.{◌<◌};

use paraid_base::DiskNo;

/// Which witness a commit sets, and how.
#[derive(Clone, Copy)]
pub(crate) struct Witness {
    /// The log disk that it is against.
    pub disk: DiskNo,
    /// Whether it is borne (open) or taken back (closed).
    pub opened: bool,
    ghost log_disk: { disk < 2 },
}

/// Who is out as a commit begins: the disk that is absent, if one is, and the one that the last
/// meta names out; and the log disk against which witness is borne, as far as it is known.
#[derive(Clone, Copy)]
pub(crate) struct Bearing {
    pub absent: Option<DiskNo>,
    pub named: Option<DiskNo>,
    pub borne: Option<DiskNo>,
}
