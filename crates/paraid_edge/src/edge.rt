//! What stands between the program and the system: no stream may become an image, one command works
//! in a folder, and images that are there and do not belong or cannot be opened are not taken for
//! lost ones.
ghost use Rattle.std.specs.Prelude.{◌≡◌, ◌⊎◌, ◌↔◌, ◌<◌, ℕ, None, Some, IfNone, IfSome, IsSome, IsTrue, map, string_bytes};
ghost use Rattle.paraid_edge.specs.EdgeEnd.{EndsAsked, EndsUnasked, IsOwnStatus};
ghost use Rattle.paraid_edge.specs.Ready.{IsAsOpenedButLogs, IsReady, IsSound, IsWhole};
ghost use Rattle.paraid_imgrack.specs.Images.{misfit_at, IsFirstMisfit};
ghost use Rattle.paraid_imgrack.specs.Looks.{images_of, HasTrueMisfits, IsUnhindered};
ghost use Rattle.paraid_words.specs.Reads.{ReadsSource};
ghost use Rattle.paraid_words.specs.Words.{AskFor};
ghost use Rattle.paraid_words.specs.declared.command.Command.{Command as CommandType};

use crate::program::{EdgeEnd, Program, Served};
use paraid_imgrack::{Claim, Closed, Hindrance, ImageRack};
use paraid_rack::MOST_SLOTS;
use paraid_serve::status;
use paraid_words::{Command, read_words};
use std::fs::{self, File, Files};
use std::io::{self, Eprint, Input, Print};
use std::os::fd::AsRawFd;

/// What the edge takes of the system.
pub trait Host: Files<File = File> + AllocGlobal + Input + Print + Eprint {}

impl<R: Files<File = File> + AllocGlobal + Input + Print + Eprint> Host for R {}

/// The folder, open three times.
///
/// The number of a closed stream goes to the next file that is opened. That is to be no image, so
/// it is the folder, which can be neither read nor written.
#[derive(Drop)]
struct Folder {
    first: File,
    second: File,
    third: File,
}

impl Folder {
    fn open<H: Host>(rt: &H) -> io::Result<Folder> {
        Ok(Folder {
            first: fs::open(rt, ".")?,
            second: fs::open(rt, ".")?,
            third: fs::open(rt, ".")?,
        })
    }

    /// Whether the stream of this number was closed.
    fn stands_for(&self, stream: i32) -> bool {
        self.first.as_raw_fd() == stream
            || self.second.as_raw_fd() == stream
            || self.third.as_raw_fd() == stream
    }
}

/// Does what the words ask for with the images of the current folder.
///
/// The status is the one that the program gave; or it is 3, 4, 6, 7 or 16, and the program is left.
pub fn answer_words<'a, H: Host, P: Program<&'a H>>(
    rt: &'a H,
    program: P,
    words: &Vec<String>,
) -> EdgeEnd<P>
    ensures asked { EndsAsked program result.left (P.free program) (P.ended program)
        (map string_bytes words.now.items) result.status }
    ensures unasked { EndsUnasked program result.left (P.told program)
        (map string_bytes words.now.items) result.status }
{
    match read_words(words) {
        Some(command) => work(rt, program, words, &command),
        None => match program.tell(rt, words) {
            Ok(status) => EdgeEnd { status, left: None },
            Err(program) => EdgeEnd::unused(program, status::NO_MEMORY),
        },
    }
}

/// Does the command that the words ask for, unless another one works here or a stream is closed.
fn work<'a, H: Host, P: Program<&'a H>>(
    rt: &'a H,
    program: P,
    words: &Vec<String>,
    command: &Command,
) -> EdgeEnd<P>
    requires { (c : CommandType) → AskFor c (map string_bytes words.now.items) → c ≡ command.now }
    ensures { EndsAsked program result.left (P.free program) (P.ended program)
        (map string_bytes words.now.items) result.status }
{
    let Ok(folder) = Folder::open(rt) else {
        return EdgeEnd::unused(program, work_nowhere(rt, command));
    };
    if folder.stands_for(1) {
        return EdgeEnd::unused(program, status::SINK);
    }
    if folder.stands_for(0) && reads_input(command) {
        return EdgeEnd::unused(program, end(rt, command, "source", status::SOURCE));
    }
    if folder.first.try_lock().is_err() {
        let _ = eprintln!(rt; "paraid: another command works in this folder");
        return EdgeEnd::unused(program, status::BUSY);
    }
    work_there(rt, program, words, command)
}

/// Whether a command reads the standard input.
fn reads_input(command: &Command) -> bool
    ensures { IsTrue result ↔ ReadsSource command.now }
{
    match command {
        Command::Format { .. } | Command::Run | Command::Spare { .. } => true,
        Command::Nbd | Command::Vol | Command::Plan { .. } => true,
        Command::Status | Command::Check | Command::Gen { .. } => false,
    }
}

/// Writes the last line, unless a client reads the output, and gives the status.
fn end<H: Host>(rt: &H, command: &Command, line: &str, status: u8) -> u8
    ensures { (c : CommandType) → IsOwnStatus c status → IsOwnStatus c result }
{
    if let Command::Nbd = command {
        return status;
    }
    match println!(rt; "{line}") {
        Ok(()) => status,
        Err(_) => status::SINK,
    }
}

/// The last line where there is no memory.
fn end_without_memory<H: Host>(rt: &H, command: &Command) -> u8
    ensures { (c : CommandType) → IsOwnStatus c result }
{
    end(rt, command, "nomemory", status::NO_MEMORY)
}

/// Without the folder no image is served. Where descriptors are wanting, one is shut.
fn work_nowhere<H: Host>(rt: &H, command: &Command) -> u8
    ensures { IsOwnStatus command.now result }
{
    let Ok(rack) = ImageRack::load(rt, rt.alloc(), MOST_SLOTS) else {
        return end_without_memory(rt, command);
    };
    if let Some((disk, hindrance)) = rack.hindrance() {
        return tell_hindrance(rt, command, disk, hindrance);
    }
    if rack.is_crowded() {
        return tell_crowd(rt, command);
    }
    let _ = eprintln!(rt; "paraid: this folder cannot be opened");
    status::BUSY
}

fn work_there<'a, H: Host, P: Program<&'a H>>(
    rt: &'a H,
    program: P,
    words: &Vec<String>,
    command: &Command,
) -> EdgeEnd<P>
    requires { (c : CommandType) → AskFor c (map string_bytes words.now.items) → c ≡ command.now }
    ensures { EndsAsked program result.left (P.free program) (P.ended program)
        (map string_bytes words.now.items) result.status }
{
    let Ok(mut rack) = ImageRack::load(rt, rt.alloc(), MOST_SLOTS) else {
        return EdgeEnd::unused(program, end_without_memory(rt, command));
    };
    if let Some((disk, hindrance)) = hindrance_of(&rack, command) {
        return EdgeEnd::unused(program, tell_hindrance(rt, command, disk, hindrance));
    }
    if is_crowded(&rack, command) {
        return EdgeEnd::unused(program, tell_crowd(rt, command));
    }
    if let Some(disk) = refused(rt, &program, &mut rack, command) {
        return EdgeEnd::unused(program, refuse(rt, command, disk));
    }
    hand_over(rt, program, words, command, P::seal(rack))
}

/// Hands the command to the program, and tells of the images after it.
fn hand_over<'a, H: Host, P: Program<&'a H>>(
    rt: &'a H,
    program: P,
    words: &Vec<String>,
    command: &Command,
    rack: P::Sealed,
) -> EdgeEnd<P>
    requires { (c : CommandType) → AskFor c (map string_bytes words.now.items)
        → IsReady (P.free program) c (P.inside rack) }
    ensures { (c : CommandType) → AskFor c (map string_bytes words.now.items)
        → ((result.left ≡ Some program) × IsOwnStatus c result.status)
        ⊎ ((result.left ≡ None) × P.ended program (P.inside rack) c result.status) }
{
    match program.serve(words, rack) {
        Ok(Served { status, rack }) => {
            end_images(rt, command, status, rack);
            EdgeEnd { status, left: None }
        }
        Err(program) => EdgeEnd::unused(program, end_without_memory(rt, command)),
    }
}

/// Brings the labels up to date, and tells which images do not belong and why disks have failed.
fn end_images<H: Host>(rt: &H, command: &Command, status: u8, mut rack: Closed<&H>) {
    match command {
        Command::Format { .. } if status == status::DONE => rack.label_array(),
        Command::Format { .. } => (),
        _ => rack.end_load(),
    }
    let _ = tell_misfits(rt, rack.images());
    tell_causes(rt, rack.images());
}

fn hindrance_of<H: Host>(rack: &ImageRack<&H>, command: &Command) -> Option<(u8, Hindrance)>
    ensures { IfNone result (IsUnhindered rack.now) }
{
    match command {
        Command::Format { .. } => rack.hinders_attach(),
        _ => rack.hindrance(),
    }
}

/// Whether too few files more may be open for the command.
fn is_crowded<H: Host>(rack: &ImageRack<&H>, command: &Command) -> bool {
    match command {
        Command::Format { .. } => rack.crowds_attach(),
        _ => rack.is_crowded(),
    }
}

fn tell_hindrance<H: Host>(rt: &H, command: &Command, disk: u8, hindrance: Hindrance) -> u8
    ensures { IsOwnStatus command.now result }
{
    match hindrance {
        Hindrance::Busy => {
            let _ = eprintln!(rt;
                "paraid: disk-{disk}.img is in use: by another command, or as another disk"
            );
            status::BUSY
        }
        Hindrance::ImageShut(cause) => {
            let _ = eprintln!(rt; "paraid: disk-{disk}.img is there and cannot be opened: {cause}");
            refuse(rt, command, disk)
        }
        Hindrance::SidecarShut(cause) => {
            let _ = eprintln!(rt;
                "paraid: disk-{disk}.power is there and cannot be opened: {cause}"
            );
            refuse(rt, command, disk)
        }
    }
}

/// Disk 0 is named with it, since each refusal names a disk.
fn tell_crowd<H: Host>(rt: &H, command: &Command) -> u8
    ensures { IsOwnStatus command.now result }
{
    let _ = eprintln!(rt; "paraid: too few files more may be open: see `ulimit -n`");
    refuse(rt, command, 0)
}

/// The first image for which the command is refused. Why is told.
fn refused<'a, H: Host, P: Program<&'a H>>(
    rt: &'a H,
    program: &P,
    rack: &mut ImageRack<&'a H>,
    command: &Command,
) -> Option<u8>
    requires { IsWhole rack.old }
    ensures { IfNone result (IsReady (P.free program.now) command.now rack.new) }
{
    match command {
        Command::Format { force: true } => None,
        Command::Format { force: false } => claimed(rt, program, rack),
        _ => unfit(rt, rack),
    }
}

/// The first image that a new array would write over.
fn claimed<'a, H: Host, P: Program<&'a H>>(
    rt: &'a H,
    program: &P,
    rack: &mut ImageRack<&'a H>,
) -> Option<u8>
    requires { IsWhole rack.old }
    ensures free { IfNone result (P.free program.now (images_of rack.new)) }
    ensures opened { IsAsOpenedButLogs rack.new }
{
    let (disk, claim) = program.claimed(rack)?;
    let _ = match claim {
        Claim::Image => eprintln!(rt;
            "paraid: disk-{disk}.img is of an array; --force writes over it"
        ),
        Claim::Data => eprintln!(rt; "paraid: disk-{disk}.img holds data; --force writes over it"),
        Claim::Unread => eprintln!(rt;
            "paraid: disk-{disk}.img cannot be read; --force writes over it"
        ),
        Claim::Sidecar => eprintln!(rt;
            "paraid: disk-{disk}.power stands without its image; --force writes over it"
        ),
    };
    Some(disk)
}

/// The first image that does not belong into its slot.
fn unfit<H: Host>(rt: &H, rack: &mut ImageRack<&H>) -> Option<u8>
    requires { IsWhole rack.old }
    ensures none { IfNone result (IsSound rack.new) }
    ensures first { IfSome result (IsFirstMisfit (images_of rack.new)) }
    ensures misfits { HasTrueMisfits rack.new }
{
    if rack.has_fitting_images() {
        return None;
    }
    tell_misfits(rt, rack)
}

/// Tells which images do not belong into their slots, and gives the first.
fn tell_misfits<H: Host>(rt: &H, rack: &ImageRack<&H>) -> Option<u8>
    ensures none { IfNone result ((d : ℕ) → d < 8 → misfit_at (images_of rack.now) d ≡ None) }
    ensures first { IfSome result (IsFirstMisfit (images_of rack.now)) }
{
    let mut first = None;
    for disk in 0..MOST_SLOTS {
        first = first.or(tell_misfit(rt, rack, disk));
    }
    first
}

fn tell_misfit<H: Host>(rt: &H, rack: &ImageRack<&H>, disk: u8) -> Option<u8>
    ensures none { IfNone result (misfit_at (images_of rack.now) disk ≡ None) }
    ensures some { IfSome result (λ told. (told ≡ disk)
        × IsSome (misfit_at (images_of rack.now) disk)) }
{
    let misfit = rack.misfit(disk)?;
    let _ = eprintln!(rt; "paraid: disk-{disk}.img {misfit}");
    Some(disk)
}

/// Tells why disks have failed.
fn tell_causes<H: Host>(rt: &H, rack: &ImageRack<&H>) {
    for disk in 0..MOST_SLOTS {
        if let Some(cause) = rack.cause(disk) {
            let _ = eprintln!(rt; "paraid: disk-{disk}.img or its sidecar failed: {cause}");
        }
    }
}

/// The last line of a command that is refused for an image.
fn refuse<H: Host>(rt: &H, command: &Command, disk: u8) -> u8
    ensures { IsOwnStatus command.now result }
{
    if let Command::Nbd = command {
        return status::NOT_AN_ARRAY;
    }
    match println!(rt; "image {disk}") {
        Ok(()) => status::NOT_AN_ARRAY,
        Err(_) => status::SINK,
    }
}
