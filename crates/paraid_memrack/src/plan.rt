//! Which calls of a rack in memory are to fail.
ghost use Rattle.std.specs.Prelude.{◌≡◌};
ghost use Rattle.paraid_memrack.specs.CallPlan.{names_call};

use paraid_base::DiskNo;

/// A call that is to fail. Only calls that are listed are counted, from 0.
#[derive(Clone, Copy)]
pub enum Planned {
    /// The call of this number.
    AtCall(u32),
    /// The call of the number `nth` among those on this disk.
    OnDisk { disk: DiskNo, nth: u32 },
}

impl Planned {
    /// Whether it names call `at`, which is call `nth` on its disk.
    pub fn names(&self, at: u32, disk: DiskNo, nth: u32) -> bool
        ensures { result ≡ names_call at disk nth self.now }
    {
        match *self {
            Planned::AtCall(call) => call == at,
            Planned::OnDisk {
                disk: on,
                nth: call,
            } => on == disk && call == nth,
        }
    }
}
