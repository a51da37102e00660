//! A rack over real files: what calls leave in them, and what a rack that is loaded finds.

use crate::image_labels;
use crate::racks::{DONE, Step, make, told};
use Step::{Attach, Park, Read, SpinUp, Sync, Write};
use paraid_base::DiskNo;
use paraid_imgrack::ImageRack;
use paraid_rack::Power;
use std::fs::{self, File, Files};
use std::process::Abort;

/// A call of the rack, or what befalls the files of its disk.
#[derive(Clone, Copy)]
enum Deed {
    Call(Step),
    /// Nothing is done.
    Look,
    /// No new sidecar can be made.
    Block,
    /// A new sidecar can be made again.
    Free,
    /// The image is cut to this many bytes.
    Cut(usize),
    /// The sidecar gets the text of this number.
    Text(u8),
    NoSidecar,
    NoImage,
}

use Deed::{Block, Call, Cut, Free, Look, NoImage, NoSidecar, Text};

/// A disk and a deed on it, whether that is done, and then the power, the size, whether the disk is
/// unsynced, and the number of its sidecar's text.
type Row = (DiskNo, Deed, bool, (Power, u32, bool), u8);

const ABSENT: (Power, u32, bool) = (Power::Absent, 0, false);

// Texts of sidecars. The tables name them by number, since a table without references costs less to
// prove.
const EMPTY: u8 = 0;

const SPINNING: u8 = 1;

const PARKED: u8 = 2;

const FAILED: u8 = 3;

const OVER: u8 = 4;

const BARE: u8 = 5;

const SPACED: u8 = 6;

const LATE: u8 = 7;

const CAPITAL: u8 = 8;

const TWO: u8 = 9;

fn text(number: u8) -> &'static str {
    match number {
        SPINNING => "spinning\n",
        PARKED => "parked\n",
        FAILED => "failed\n",
        OVER => "failed   \n",
        BARE => "spinning",
        SPACED => "spinning \t\r\n",
        LATE => " parked",
        CAPITAL => "Parked",
        TWO => "spinning parked",
        _ => "",
    }
}

/// Calls on one rack.
const CALLS: [Row; 17] = [
    (
        0,
        Call(Attach(5)),
        true,
        (Power::Spinning, 5, false),
        SPINNING,
    ),
    (
        0,
        Call(Write(4, 7)),
        true,
        (Power::Spinning, 5, true),
        SPINNING,
    ),
    (0, Call(Sync), true, (Power::Spinning, 5, false), SPINNING),
    (
        0,
        Call(Read(4, 7)),
        true,
        (Power::Spinning, 5, false),
        SPINNING,
    ),
    (
        0,
        Call(Read(3, 0)),
        true,
        (Power::Spinning, 5, false),
        SPINNING,
    ),
    (0, Call(Park), true, (Power::Parked, 5, false), PARKED),
    (0, Call(SpinUp), true, (Power::Spinning, 5, false), SPINNING),
    (0, Call(Park), true, (Power::Parked, 5, false), PARKED),
    // A read past the end of the file fails.
    (
        1,
        Call(Attach(4)),
        true,
        (Power::Spinning, 4, false),
        SPINNING,
    ),
    (1, Cut(1000), true, (Power::Spinning, 4, false), SPINNING),
    (
        1,
        Call(Read(0, 0)),
        true,
        (Power::Spinning, 4, false),
        SPINNING,
    ),
    (1, Call(Read(1, 0)), false, ABSENT, FAILED),
    // Where no new sidecar can be made, the old one is written over.
    (2, Text(SPINNING), true, ABSENT, SPINNING),
    (2, Block, true, ABSENT, SPINNING),
    (2, Call(Attach(1)), false, ABSENT, OVER),
    (2, Free, true, ABSENT, OVER),
    (
        2,
        Call(Attach(2)),
        true,
        (Power::Spinning, 2, false),
        SPINNING,
    ),
];

/// A later rack finds the disks as they were left.
const LATER: [Row; 5] = [
    (0, Look, true, (Power::Parked, 5, false), PARKED),
    (0, Call(SpinUp), true, (Power::Spinning, 5, false), SPINNING),
    (
        0,
        Call(Read(4, 7)),
        true,
        (Power::Spinning, 5, false),
        SPINNING,
    ),
    (1, Look, true, ABSENT, FAILED),
    (2, Look, true, (Power::Spinning, 2, true), SPINNING),
];

/// What a rack that is loaded after the deed finds.
const FILES: [Row; 11] = [
    (0, Cut(1300), true, (Power::Spinning, 2, true), SPINNING),
    (0, Text(BARE), true, (Power::Spinning, 2, true), BARE),
    (0, Text(SPACED), true, (Power::Spinning, 2, true), SPACED),
    (0, Text(PARKED), true, (Power::Parked, 2, false), PARKED),
    (0, Text(FAILED), true, ABSENT, FAILED),
    (0, Text(EMPTY), true, ABSENT, EMPTY),
    (0, Text(LATE), true, ABSENT, LATE),
    (0, Text(CAPITAL), true, ABSENT, CAPITAL),
    (0, Text(TWO), true, ABSENT, TWO),
    (0, NoSidecar, true, (Power::Spinning, 2, true), EMPTY),
    (0, NoImage, true, ABSENT, EMPTY),
];

pub fn image(disk: DiskNo) -> &'static str {
    match disk {
        0 => "disk-0.img",
        1 => "disk-1.img",
        _ => "disk-2.img",
    }
}

fn sidecar(disk: DiskNo) -> &'static str {
    match disk {
        0 => "disk-0.power",
        1 => "disk-1.power",
        _ => "disk-2.power",
    }
}

/// The name of a sidecar that is being written.
fn next(disk: DiskNo) -> &'static str {
    match disk {
        0 => "disk-0.power.next",
        1 => "disk-1.power.next",
        _ => "disk-2.power.next",
    }
}

/// What a file holds, if it is there.
pub fn bytes_in<H: Files + AllocGlobal>(host: &H, name: &str) -> Option<Vec<u8>> {
    fs::read(host, name).ok()
}

/// Makes a file of these bytes, and says whether that is done.
pub fn make_file<H: Files>(host: &H, name: &str, bytes: &[u8]) -> bool {
    fs::write(host, name, bytes).is_ok()
}

/// Whether a file was as long, and is cut.
pub fn cut<H: Files + AllocGlobal>(host: &H, name: &str, length: usize) -> bool {
    let Some(bytes) = bytes_in(host, name) else {
        return false;
    };
    match bytes.get(..length) {
        Some(first) => make_file(host, name, first),
        None => false,
    }
}

/// Makes the call, and says whether it is done.
pub fn is_called<F: Files<File = File> + Drop>(
    rack: &mut ImageRack<F>,
    disk: DiskNo,
    step: Step,
) -> bool {
    make(rack, disk, step) == DONE
}

/// Has this befall the files of a disk, and says whether it is done.
fn befall<H: Files + AllocGlobal>(host: &H, disk: DiskNo, deed: Deed) -> bool {
    match deed {
        Call(_) => false,
        Look => true,
        Block => fs::create_dir(host, next(disk)).is_ok(),
        Free => fs::remove_dir(host, next(disk)).is_ok(),
        Cut(length) => cut(host, image(disk), length),
        Text(number) => make_file(host, sidecar(disk), text(number).as_bytes()),
        NoSidecar => fs::remove_file(host, sidecar(disk)).is_ok(),
        NoImage => fs::remove_file(host, image(disk)).is_ok(),
    }
}

/// Does the deed of a row, and says whether it is done.
fn act<H: Files + AllocGlobal, F: Files<File = File> + Drop>(
    host: &H,
    rack: &mut ImageRack<F>,
    row: &Row,
) -> bool {
    match row.1 {
        Call(step) => is_called(rack, row.0, step),
        deed => befall(host, row.0, deed),
    }
}

/// Whether the sidecar of the disk has this text, where none is as an empty one.
fn has_sidecar<H: Files + AllocGlobal>(host: &H, disk: DiskNo, text: &str) -> bool {
    match bytes_in(host, sidecar(disk)) {
        Some(found) => found.as_slice() == text.as_bytes(),
        None => text == "",
    }
}

pub fn loaded<H: Files<File = File> + AllocGlobal + Abort>(host: &H) -> ImageRack<&H> {
    ImageRack::load(host, host.alloc(), 3)
        .ok()
        .expect(host, "there is memory")
}

/// Whether the disk of a row is as the row says.
fn is_told<F: Files<File = File> + Drop>(rack: &ImageRack<F>, row: &Row) -> bool {
    told(rack, row.0) == Some(row.3)
}

/// Whether a row says what its deed has left, and whether it was done.
fn is_met<H: Files + AllocGlobal, F: Files<File = File> + Drop>(
    host: &H,
    rack: &ImageRack<F>,
    row: &Row,
    done: bool,
) -> bool {
    done == row.2 && is_told(rack, row) && has_sidecar(host, row.0, text(row.4))
}

/// Does the deed of a row, and says whether it has left what the row says.
fn is_done<H: Files + AllocGlobal, F: Files<File = File> + Drop>(
    host: &H,
    rack: &mut ImageRack<F>,
    row: &Row,
) -> bool {
    let done = act(host, rack, row);
    is_met(host, rack, row, done)
}

/// How many rows are so before one that is not, where the deeds are done on this rack.
fn done_on<H: Files + AllocGlobal, F: Files<File = File> + Drop>(
    host: &H,
    rack: &mut ImageRack<F>,
    rows: &[Row],
) -> usize {
    for at in 0..rows.len() {
        if !is_done(host, rack, &rows[at]) {
            return at;
        }
    }
    rows.len()
}

/// The same on one rack that is loaded.
fn done_on_one<H: Files<File = File> + AllocGlobal + Abort>(host: &H, rows: &[Row]) -> usize {
    done_on(host, &mut loaded(host), rows)
}

/// Does the deed of a row on a rack that is loaded for it.
fn act_anew<H: Files<File = File> + AllocGlobal + Abort>(host: &H, row: &Row) -> bool {
    act(host, &mut loaded(host), row)
}

/// Whether a rack that is loaded finds what the row says.
fn is_met_anew<H: Files<File = File> + AllocGlobal + Abort>(
    host: &H,
    row: &Row,
    done: bool,
) -> bool {
    is_met(host, &loaded(host), row, done)
}

/// Does the deed of a row, and says whether a rack that is loaded after it finds what the row says.
fn is_done_anew<H: Files<File = File> + AllocGlobal + Abort>(host: &H, row: &Row) -> bool {
    let done = act_anew(host, row);
    is_met_anew(host, row, done)
}

/// How many rows are so before one that is not, where a rack is loaded for each deed and after it.
fn found<H: Files<File = File> + AllocGlobal + Abort>(host: &H, rows: &[Row]) -> usize {
    for at in 0..rows.len() {
        if !is_done_anew(host, &rows[at]) {
            return at;
        }
    }
    rows.len()
}

fn assert_all(host: &impl Abort, at: usize, rows: usize) {
    assert!(host; at == rows, "row {at}");
}

/// Does the deeds on one rack.
fn walk<H: Files<File = File> + AllocGlobal + Abort>(host: &H, rows: &[Row]) {
    assert_all(host, done_on_one(host, rows), rows.len());
}

/// Does the deeds, each before a rack is loaded.
fn walk_anew<H: Files<File = File> + AllocGlobal + Abort>(host: &H, rows: &[Row]) {
    assert_all(host, found(host, rows), rows.len());
}

/// Removes what a run leaves.
fn clean<H: Files>(host: &H) {
    for disk in 0..3 {
        let _ = fs::remove_file(host, image(disk));
        let _ = fs::remove_file(host, sidecar(disk));
        let _ = fs::remove_dir(host, next(disk));
    }
    let _ = fs::remove_file(host, "disk-1.copy");
}

#[test]
fn a_folder_keeps_its_disks(rt: HostRuntime) {
    clean(&rt);
    walk(&rt, &CALLS);
    walk(&rt, &LATER);
    walk_anew(&rt, &FILES);
    clean(&rt);
    image_labels::walk(&rt);
    clean(&rt);
}
