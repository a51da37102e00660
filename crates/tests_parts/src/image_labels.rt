//! Labels behind the blocks of images: their text, and which images a rack finds in the wrong slot.

use crate::image_racks::{bytes_in, cut, image, is_called, loaded, make_file};
use crate::racks::Step;
use paraid_imgrack::{ImageRack, LABEL_SIZE, Label, Misfit};
use std::fs::{self, File, Files};
use std::io;
use std::process::Abort;

/// A label by the description of its form. The sum is that of another program.
const TEXT: &[u8; LABEL_SIZE] =
    b"paraid label 1, kept by paraid after the blocks\narray 00017f80ff0f1e2d3c4b5a6978879605\ndisk 2 of 5\ngeneration 00000000000000000012\nknown 0 00000000000000000012\nknown 1 00000000000000000011\nknown 2 18446744073709551615\nknown 3 00000000000000000009\nknown 4 00000000000000000008\nknown 5 00000000000000000000\nknown 6 00000000000000000000\nknown 7 00000000000000000007\nsum 33a60b4524cbefa6\n";

const LABEL: Label = Label {
    array: [
        0x00, 0x01, 0x7f, 0x80, 0xff, 0x0f, 0x1e, 0x2d, 0x3c, 0x4b, 0x5a, 0x69, 0x78, 0x87, 0x96,
        0x05,
    ],
    disk: 2,
    disks: 5,
    generation: 12,
    known: [12, 11, u64::MAX, 9, 8, 0, 0, 7],
};

/// Whether a label is read where one byte of its text is another one.
fn is_read_with_a_fault(at: usize) -> bool {
    let mut text = *TEXT;
    if at < LABEL_SIZE {
        text[at] ^= 1;
    }
    Label::read(&text).is_some()
}

fn has_the_text() -> bool {
    LABEL.text() == *TEXT
}

fn gives_the_label() -> bool {
    Label::read(TEXT) == Some(LABEL)
}

#[test]
fn a_label_has_one_text(rt: HostRuntime) {
    assert!(rt; has_the_text());
    assert!(rt; gives_the_label());
    for at in 0..LABEL_SIZE {
        assert!(rt; !is_read_with_a_fault(at), "byte {at}");
    }
}

/// What befalls the images of three disks.
#[derive(Clone, Copy)]
enum Deed {
    /// Nothing is done.
    Look,
    /// Disks 1 and 2 change their images.
    Swap,
    /// A copy of disk 1 is made.
    Copy,
    /// The image of disk 1 and its copy change their names.
    Restore,
    /// One command works with the disks.
    Load,
    /// One works with them, and parks disk 1.
    Park,
    /// One spins up disk 1 between two syncs, and does not end its load.
    Wake,
    /// One attaches disk 1 anew. A copy of it is made before, after the labels were written.
    Replace,
    /// The label of disk 1 gets the number of another array.
    Rename,
    /// The label of disk 1 is cut away.
    Strip,
    /// So it is, and the other labels say that nothing is known of disk 1.
    Forget,
    /// The label of disk 0 says that nothing is known of disk 1.
    Doubt,
    /// Disk 0 fails in a command that then spins up disk 1. Its sidecar is then set to spinning by
    /// hand.
    Lose,
    /// One command makes three disks of four blocks, with labels.
    Format,
    /// One finds that disk 1 is not spun up, since it is of another array.
    Refuse,
    /// One finds that disk 1 is not spun up, since it has no label.
    RefuseBare,
    /// One finds that disk 1 is not attached over a file that holds other data.
    Spare,
}

use Deed::{
    Copy, Doubt, Forget, Format, Load, Look, Lose, Park, Refuse, RefuseBare, Rename, Replace,
    Restore, Spare, Strip, Swap, Wake,
};

/// A deed, and the number of what a rack then finds.
type Row = (Deed, u8);

// What a rack finds. The table names it by number, since a table with fewer enums costs less to
// prove.
const FIT: u8 = 0;

const SWAPPED: u8 = 1;

const RESTORED: u8 = 2;

const REPLACED: u8 = 3;

const WOKEN: u8 = 4;

const STRIPPED: u8 = 5;

const STRIPPED_AGAIN: u8 = 6;

const DOUBTED: u8 = 7;

/// The image of disk 1 has an older generation than the others know.
fn old(generation: u64, known: u64) -> [Option<Misfit>; 3] {
    [None, Some(Misfit::Old { generation, known }), None]
}

/// The image of disk 1 has no label, where the others know one.
fn unlabelled(known: u64) -> [Option<Misfit>; 3] {
    [None, Some(Misfit::Bare { known }), None]
}

/// The image of disk 1 was told to the others, and one of them does not know it.
fn newer(generation: u64) -> [Option<Misfit>; 3] {
    let known = 0;
    [None, Some(Misfit::New { generation, known }), None]
}

/// Why each image does not belong into its slot.
fn misfits(number: u8) -> [Option<Misfit>; 3] {
    match number {
        SWAPPED => [
            None,
            Some(Misfit::Moved { disk: 2 }),
            Some(Misfit::Moved { disk: 1 }),
        ],
        RESTORED => old(1, 2),
        REPLACED => old(3, 4),
        WOKEN => old(6, 7),
        STRIPPED => unlabelled(4),
        STRIPPED_AGAIN => unlabelled(2),
        DOUBTED => newer(4),
        _ => [None; 3],
    }
}

const ROWS: [Row; 23] = [
    (Look, FIT),
    (Swap, SWAPPED),
    (Swap, FIT),
    (Copy, FIT),
    // A load in which nothing is synced leaves no copy behind.
    (Restore, FIT),
    (Restore, FIT),
    (Load, FIT),
    (Restore, RESTORED),
    (Restore, FIT),
    (Replace, FIT),
    (Restore, REPLACED),
    (Restore, FIT),
    (Copy, FIT),
    (Strip, STRIPPED),
    (Restore, FIT),
    (Load, FIT),
    // A parked image is not looked at before it is spun up.
    (Park, FIT),
    (Copy, FIT),
    // Of one that was spun up, the others know it from the next sync on.
    (Wake, FIT),
    (Restore, WOKEN),
    (Restore, FIT),
    (Park, FIT),
    (Rename, FIT),
];

/// A parked image is not looked at before it is spun up.
const PARKED: [Row; 2] = [(Park, FIT), (Strip, FIT)];

/// An image without a label is taken where nothing is known of it, and gets one.
const FORGOTTEN: [Row; 3] = [(Forget, FIT), (Load, FIT), (Strip, STRIPPED_AGAIN)];

/// An image is not taken where the label of another one does not know it, though that one was told.
const UNHEARD: [Row; 4] = [(Park, FIT), (Lose, FIT), (Load, FIT), (Doubt, DOUBTED)];

const SPARE: &str = "disk-1.copy";

fn swap<H: Files>(host: &H, one: &str, other: &str) -> bool {
    fs::rename(host, one, "disk.swap").is_ok()
        && fs::rename(host, other, one).is_ok()
        && fs::rename(host, "disk.swap", other).is_ok()
}

fn copy<H: Files>(host: &H) -> bool {
    fs::copy(host, image(1), SPARE).is_ok()
}

fn sync_all<F: Files<File = File> + Drop>(rack: &mut ImageRack<F>) -> bool {
    let mut done = true;
    for disk in 0..3 {
        done = done && is_called(rack, disk, Step::Sync);
    }
    done
}

/// Works with the disks, and parks disk 1 where that is asked.
fn use_all<F: Files<File = File> + Drop>(rack: &mut ImageRack<F>, parks: bool) -> bool {
    rack.has_fitting_images() && sync_all(rack) && (!parks || is_called(rack, 1, Step::Park))
}

/// Spins up disk 1 between two syncs.
fn wake<F: Files<File = File> + Drop>(rack: &mut ImageRack<F>) -> bool {
    rack.has_fitting_images()
        && is_called(rack, 0, Step::Sync)
        && is_called(rack, 1, Step::SpinUp)
        && is_called(rack, 0, Step::Sync)
}

/// Disk 0 fails after it got its label, and then disk 1 is spun up.
fn wake_after_loss<F: Files<File = File> + Drop>(rack: &mut ImageRack<F>) -> bool {
    rack.has_fitting_images()
        && is_called(rack, 0, Step::Sync)
        && !is_called(rack, 0, Step::Read(4, 0))
        && is_called(rack, 1, Step::SpinUp)
        && is_called(rack, 2, Step::Sync)
}

/// Attaches disk 1 anew.
fn attach_one<F: Files<File = File> + Drop>(rack: &mut ImageRack<F>) -> bool {
    is_called(rack, 1, Step::Attach(4)) && sync_all(rack)
}

/// Makes three disks of four blocks, with labels.
fn format<F: Files<File = File> + Drop>(rack: &mut ImageRack<F>) -> bool {
    let mut done = true;
    for disk in 0..3 {
        done = done && is_called(rack, disk, Step::Attach(4));
    }
    rack.label_array();
    done
}

/// Whether disk 1 is not spun up, for this reason.
fn refuses_late<F: Files<File = File> + Drop>(rack: &mut ImageRack<F>, misfit: Misfit) -> bool {
    rack.has_fitting_images() && !is_called(rack, 1, Step::SpinUp) && rack.misfit(1) == Some(misfit)
}

/// What somebody has stored in the place of disk 1.
const DATA: &[u8] = b"no image";

/// Whether disk 1 is not attached, since its place is taken.
fn is_spared<F: Files<File = File> + Drop>(rack: &mut ImageRack<F>) -> bool {
    if !rack.has_fitting_images() || is_called(rack, 1, Step::Attach(4)) {
        return false;
    }
    match rack.cause(1) {
        Some(cause) => cause.kind() == io::ErrorKind::AlreadyExists,
        None => false,
    }
}

/// Whether a file that holds data is left as it is.
fn spares<H: Files<File = File> + AllocGlobal + Abort>(host: &H) -> bool {
    make_file(host, image(1), DATA) && is_spared(&mut loaded(host)) && is_left(host)
}

fn is_left<H: Files + AllocGlobal>(host: &H) -> bool {
    match bytes_in(host, image(1)) {
        Some(bytes) => bytes.as_slice() == DATA,
        None => false,
    }
}

/// What one command does with its rack.
fn use_rack<H: Files, F: Files<File = File> + Drop>(
    host: &H,
    rack: &mut ImageRack<F>,
    deed: Deed,
) -> bool {
    match deed {
        Load => use_all(rack, false),
        Park => use_all(rack, true),
        Wake => wake(rack),
        Lose => wake_after_loss(rack),
        Replace => use_all(rack, false) && copy(host) && attach_one(rack),
        Format => format(rack),
        Refuse => refuses_late(rack, Misfit::Foreign),
        RefuseBare => refuses_late(rack, Misfit::Bare { known: 2 }),
        _ => false,
    }
}

/// Whether these bytes end in a label. It gets the number of another array, or knows nothing of
/// disk 1.
fn gets_label(bytes: &mut [u8], is_renamed: bool) -> bool {
    let Some(at) = bytes.len().checked_sub(LABEL_SIZE) else {
        return false;
    };
    let mut text = [0; LABEL_SIZE];
    text.copy_from_slice(&bytes[at..]);
    let Some(mut label) = Label::read(&text) else {
        return false;
    };
    if is_renamed {
        label.array[15] ^= 1;
    } else {
        label.known[1] = 0;
    }
    bytes[at..].copy_from_slice(&label.text());
    true
}

/// The image of a disk gets the label of another array, or one that knows nothing of disk 1.
fn relabel<H: Files + AllocGlobal>(host: &H, disk: u8, is_renamed: bool) -> bool {
    let Some(mut bytes) = bytes_in(host, image(disk)) else {
        return false;
    };
    gets_label(&mut bytes, is_renamed) && make_file(host, image(disk), &bytes)
}

/// The label of disk 1 is cut away. The four blocks are left.
fn strip<H: Files + AllocGlobal>(host: &H) -> bool {
    cut(host, image(1), 2048)
}

/// Has one command work with the disks.
fn use_disks<H: Files<File = File> + AllocGlobal + Abort>(host: &H, deed: Deed) -> bool {
    use_rack(host, &mut loaded(host), deed)
}

fn act<H: Files<File = File> + AllocGlobal + Abort>(host: &H, deed: Deed) -> bool {
    match deed {
        Look => true,
        Swap => swap(host, image(1), image(2)),
        Copy => copy(host),
        Restore => swap(host, image(1), SPARE),
        Rename => relabel(host, 1, true),
        Strip => strip(host),
        Doubt => relabel(host, 0, false),
        Lose => use_disks(host, deed) && make_file(host, "disk-0.power", b"spinning"),
        Forget => relabel(host, 0, false) && relabel(host, 2, false) && strip(host),
        Spare => spares(host),
        Load | Park | Wake | Replace | Format | Refuse | RefuseBare => use_disks(host, deed),
    }
}

/// Whether the images of a rack fit, and why each does not.
fn look<F: Files<File = File> + Drop>(rack: &mut ImageRack<F>) -> (bool, [Option<Misfit>; 3]) {
    let fits = rack.has_fitting_images();
    (fits, [rack.misfit(0), rack.misfit(1), rack.misfit(2)])
}

/// Whether the images fit as the number says.
fn fit_as(found: &(bool, [Option<Misfit>; 3]), number: u8) -> bool {
    found.0 == (number == FIT) && found.1 == misfits(number)
}

/// Whether a rack that is loaded finds what the number says.
fn finds<H: Files<File = File> + AllocGlobal + Abort>(host: &H, number: u8) -> bool {
    fit_as(&look(&mut loaded(host)), number)
}

/// Does the deed of a row, and says whether a rack that is loaded then finds what the row says.
fn is_row_met<H: Files<File = File> + AllocGlobal + Abort>(host: &H, row: &Row) -> bool {
    act(host, row.0) && finds(host, row.1)
}

/// How many rows are so before one that is not.
fn met<H: Files<File = File> + AllocGlobal + Abort>(host: &H, rows: &[Row]) -> usize {
    for at in 0..rows.len() {
        if !is_row_met(host, &rows[at]) {
            return at;
        }
    }
    rows.len()
}

fn assert_met<H: Files<File = File> + AllocGlobal + Abort>(host: &H, rows: &[Row]) {
    let at = met(host, rows);
    assert!(host; at == rows.len(), "row {at}");
}

pub(crate) fn walk<H: Files<File = File> + AllocGlobal + Abort>(host: &H) {
    assert!(host; act(host, Format));
    assert_met(host, &ROWS);
    assert!(host; act(host, Refuse));
    assert!(host; act(host, Format));
    assert_met(host, &PARKED);
    assert!(host; act(host, RefuseBare));
    assert!(host; act(host, Spare));
    assert!(host; act(host, Format));
    assert_met(host, &FORGOTTEN);
    assert!(host; act(host, Format));
    assert_met(host, &UNHEARD);
}
