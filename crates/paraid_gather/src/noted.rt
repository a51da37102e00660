//! A record of the calls on a rack, beside it.
ghost use Rattle.std.specs.Prelude.{◌≡◌, true, Option, None};
ghost use Rattle.paraid_rack.specs.Trail.{Trail};
ghost use Rattle.paraid_rack.specs.Told.{GrowsByCall};
ghost use Rattle.paraid_gather.specs.Above.{TellsOut};

use paraid_base::{Block, DiskNo, Place};
use paraid_rack::Call;

/// A log of the calls on a rack, for proofs and tests. The program does without.
pub trait Noted {
    /// The start and the calls since then, while each call is noted.
    ghost noted: { Self → Option Trail };

    /// Notes one more call.
    fn note(&mut self, call: Call)
        ensures { GrowsByCall (noted self.old) (noted self.new) call };
}

/// A log in which nothing is noted.
#[derive(Drop)]
pub struct Unnoted;

impl Noted for Unnoted {
    ghost noted = { λ unnoted. None };

    fn note(&mut self, _call: Call) {}
}

/// Notes a write of this block.
pub(crate) fn note_write<L: Noted>(
    log: &mut L,
    disk: DiskNo,
    place: Place,
    block: &Block,
    done: bool,
)
    ensures { GrowsByCall
        (L.noted log.old) (L.noted log.new) (Call.Write disk place block.now done) }
{
    let bytes = block.copy();
    log.note(Call::Write {
        disk,
        place,
        bytes,
        done,
    });
}

/// Notes how what waits for a disk was written out: done, it is no call of the rack above, and
/// failed it is a sync that has failed.
pub(crate) fn note_out<L: Noted>(log: &mut L, disk: DiskNo, done: bool)
    ensures told { TellsOut done disk (L.noted log.old) (L.noted log.new) }
    ensures same { done ≡ true → log.new ≡ log.old }
{
    if done {
        return;
    }
    log.note(Call::Sync { disk, done: false });
}
