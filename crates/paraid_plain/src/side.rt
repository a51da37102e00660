//! What each log disk says.
ghost use Rattle.std.specs.Prelude.{◌≡◌, ◌<◌, ◌↔◌, true, false, [], IfSome, IfNone, IsTrue};
ghost use Rattle.paraid_base.specs.Xor.{zero_block};
ghost use Rattle.paraid_record.specs.declared.meta.Meta.{Meta as MetaType};
ghost use Rattle.paraid_record.specs.Targets.{targets_of};
ghost use Rattle.paraid_image.specs.Sides.{Batch, IsSide, LogState, Says, SaysClosed, SaysOpen, is_open, stored_block};
ghost use Rattle.paraid_plain.specs.Images.{disks_in};
ghost use Rattle.paraid_plain.specs.Statements.{batch_in, said_of, side_in};

use crate::image::Image;
use crate::statement::{Side, Statement};
use paraid_base::{BATCH_META, BATCH_ROOM, DiskNo, FIRST_LIST, GATE, META};
use paraid_parity::is_zero;
use paraid_record::{Meta, Target, Targets, read_meta, read_targets};

/// What a log disk says, if its side is well formed.
pub fn statement_of(image: &Image, disk: DiskNo) -> Option<Statement>
    requires { disk < 2 }
    ensures disk { IfSome result (λ s. s.disk ≡ disk) }
    ensures some { IfSome result (λ s. Says (disks_in image.now) disk (said_of image.now s)) }
    ensures none { IfNone result ((said : LogState) → Says (disks_in image.now) disk said → ⊥) }
{
    if !image.is_present(disk) {
        return None;
    }
    if is_gate_open(image, disk) {
        open_statement(image, disk)
    } else {
        closed_statement(image, disk)
    }
}

/// The side of a log disk.
pub fn side_of(image: &Image, disk: DiskNo) -> Side
    requires { disk < 2 }
    ensures { IsSide (disks_in image.now) disk (side_in image.now result) }
{
    if !image.is_present(disk) {
        return Side::Absent;
    }
    match statement_of(image, disk) {
        Some(says) => Side::Formed { says },
        None if is_blank(image, disk) => Side::Blank,
        None => Side::Bad,
    }
}

fn is_blank(image: &Image, disk: DiskNo) -> bool
    ensures { IsTrue result ↔ ((is_open (stored_block (disks_in image.now) disk 0) ≡ false)
        × (stored_block (disks_in image.now) disk 1 ≡ zero_block)) }
{
    !is_gate_open(image, disk) && is_zero(&image.stored(disk, META))
}

/// Whether the gate of a log disk is open.
pub(crate) fn is_gate_open(image: &Image, disk: DiskNo) -> bool
    ensures { result ≡ is_open (stored_block (disks_in image.now) disk 0) }
{
    image.stored(disk, GATE).bytes[0] != 0
}

fn closed_statement(image: &Image, disk: DiskNo) -> Option<Statement>
    requires { disk < 2 }
    ensures disk { IfSome result (λ s. s.disk ≡ disk) }
    ensures shut { IfSome result (λ s. s.opened ≡ false) }
    ensures some { IfSome result (λ s.
        SaysClosed (stored_block (disks_in image.now) disk) s.meta (batch_in image.now s)) }
    ensures none { IfNone result ((m : MetaType) (batch : Batch)
        → SaysClosed (stored_block (disks_in image.now) disk) m batch → ⊥) }
{
    let meta = read_meta(&image.stored(disk, META))?;
    Some(Statement {
        disk,
        opened: false,
        meta,
        targets: no_targets(),
    })
}

fn open_statement(image: &Image, disk: DiskNo) -> Option<Statement>
    requires { disk < 2 }
    ensures disk { IfSome result (λ s. s.disk ≡ disk) }
    ensures opened { IfSome result (λ s. s.opened ≡ true) }
    ensures some { IfSome result (λ s.
        SaysOpen (stored_block (disks_in image.now) disk) s.meta (batch_in image.now s)) }
    ensures none { IfNone result ((m : MetaType) (batch : Batch)
        → SaysOpen (stored_block (disks_in image.now) disk) m batch → ⊥) }
{
    let meta = read_meta(&image.stored(disk, BATCH_META))?;
    let targets = read_targets(&image.stored(disk, FIRST_LIST), &meta.setup.geometry)?;
    Some(Statement {
        disk,
        opened: true,
        meta,
        targets,
    })
}

fn no_targets() -> Targets
    ensures { targets_of result ≡ [] }
{
    Targets {
        count: 0,
        list: [Target { disk: 0, place: 0 }; BATCH_ROOM],
    }
}
