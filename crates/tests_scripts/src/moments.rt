//! Runs that are stopped before each of their calls, and runs in which each call of a disk fails:
//! all that is told then.

use crate::changes::without;
use crate::lines::{add_line, add_word, trace_of};
use crate::runs::{Conditions, Left, checked, played, ran, stopped, whole};
use paraid_base::DiskNo;
use paraid_memrack::{MemRack, Pick};
use paraid_rack::Rack;
use std::alloc::Global;

/// A text, and the first and the last moment at which it was told.
#[derive(Drop)]
struct Sight {
    text: String,
    first: u32,
    last: u32,
}

/// The texts that were told, in the order in which they first were.
#[derive(Drop)]
pub struct Sights {
    list: Vec<Sight>,
}

impl Sights {
    pub fn new(alloc: Global) -> Sights {
        Sights {
            list: Vec::new(alloc),
        }
    }

    fn note(&mut self, text: String, moment: u32) -> Option<()> {
        for at in 0..self.list.len() {
            if self.list[at].text == text {
                self.list[at].last = moment;
                return Some(());
            }
        }
        let sight = Sight {
            text,
            first: moment,
            last: moment,
        };
        self.list.push(sight).ok()
    }

    /// Notes what a run has told, in one line without the blocks of zeros, and its status where
    /// that is not 0.
    pub fn note_run(&mut self, alloc: Global, left: &Left, moment: u32) -> Option<()> {
        let mut text = String::new(alloc);
        for line in left.text.as_str().lines() {
            if !line.ends_with("=00") {
                add_word(&mut text, line)?;
            }
        }
        add_status(alloc, &mut text, left.status)?;
        self.note(text, moment)
    }

    /// A line of each text, with its moments.
    pub fn told(&self, alloc: Global) -> Option<String> {
        let mut told = String::new(alloc);
        for sight in self.list.iter() {
            add_sight(alloc, &mut told, sight)?;
        }
        Some(told)
    }
}

fn add_status(alloc: Global, text: &mut String, status: u8) -> Option<()> {
    if status == 0 {
        return Some(());
    }
    let word = format!(in alloc; "status {status}").ok()?;
    add_word(text, word.as_str())
}

fn add_sight(alloc: Global, told: &mut String, sight: &Sight) -> Option<()> {
    let (first, last) = (sight.first, sight.last);
    let moments = format!(in alloc; "{first}-{last}: ").ok()?;
    told.push_str(moments.as_str()).ok()?;
    told.push_str(sight.text.as_str()).ok()?;
    told.push('\n').ok()
}

// Each of the 20 blocks.
const READS: &str =
    "r 0; r 1; r 2; r 3; r 4; r 5; r 6; r 7; r 8; r 9; r 10; r 11; r 12; r 13; r 14; r 15; r 16; r 17; r 18; r 19";

// What `check` tells where nothing is false.
const SOUND: &str = "check rows 0 stripes 0 fill 0 units 0 mirrors 0\n";

// What a run has told, and then a check of what it leaves where that finds something.
fn with_check(alloc: Global, left: Left) -> Option<Left> {
    let Left {
        status,
        mut text,
        disks,
    } = left;
    let found = checked(alloc, disks)?;
    if found.text.as_str() != SOUND {
        text.push_str(found.text.as_str()).ok()?;
    }
    Some(Left {
        status,
        text,
        disks: found.disks,
    })
}

// Notes what a run over these disks tells, and a check after it that finds something.
fn see(alloc: Global, disks: MemRack, moment: u32, sights: &mut Sights) -> Option<()> {
    let left = with_check(alloc, played(alloc, READS, disks)?)?;
    sights.note_run(alloc, &left, moment)
}

// Adds the lines that tell a block.
fn add_blocks(text: &mut String, told: &str) -> Option<()> {
    for line in told.lines() {
        if line.split_once('=').is_some() {
            add_line(text, line)?;
        }
    }
    Some(())
}

fn last_line(told: &str) -> Option<&str> {
    let mut last = None;
    for line in told.lines() {
        last = Some(line);
    }
    last
}

// Adds the lines that tell a block, and the last one.
fn add_end(text: &mut String, told: &str) -> Option<()> {
    add_blocks(text, told)?;
    add_line(text, last_line(told)?)
}

// Adds those of a run over all blocks, with a check after it.
fn add_next(alloc: Global, text: &mut String, disks: &MemRack) -> Option<()> {
    let next = whole(alloc, READS, &Conditions::plain(alloc), disks)?;
    add_end(text, with_check(alloc, next)?.text.as_str())
}

fn end_of(alloc: Global, left: &Left) -> Option<String> {
    let mut text = String::new(alloc);
    add_end(&mut text, left.text.as_str())?;
    if left.status == 0 {
        add_next(alloc, &mut text, &left.disks)?;
    }
    Some(text)
}

/// A run over these lines of which the blocks and the last line are told, and then those of a run
/// over all blocks, with a check after it.
pub fn ended(alloc: Global, lines: &str, conditions: &Conditions, disks: &MemRack) -> Option<Left> {
    let left = whole(alloc, lines, conditions, disks)?;
    let text = end_of(alloc, &left)?;
    Some(Left {
        status: left.status,
        text,
        disks: left.disks,
    })
}

/// No disk.
const NO_DISK: DiskNo = 255;

// Notes that with each disk lost that may be: the one that is out, or any where none is.
fn see_losses(
    alloc: Global,
    disks: &MemRack,
    out: DiskNo,
    moment: u32,
    sights: &mut Sights,
) -> Option<()> {
    for disk in 0..disks.slots() {
        if out == NO_DISK || out == disk {
            see(alloc, without(alloc, disks, disk)?, moment, sights)?;
        }
    }
    Some(())
}

// Notes that for each way to fill what is loose at this moment, with a disk lost and with none.
fn see_picks(
    alloc: Global,
    disks: &MemRack,
    out: DiskNo,
    moment: u32,
    sights: &mut Sights,
) -> Option<()> {
    for pick in [Pick::Old, Pick::New, Pick::Filled(165), Pick::Mixed] {
        let left = stopped(alloc, disks, moment, pick, &[])?;
        see_losses(alloc, &left, out, moment, sights)?;
        see(alloc, left, moment, sights)?;
    }
    Some(())
}

/// What a run over all blocks tells after a stop at each moment of a run over these lines. Past the
/// mount this disk is out, if it is one.
pub fn stops(
    alloc: Global,
    lines: &str,
    out: DiskNo,
    conditions: &Conditions,
    disks: &MemRack,
) -> Option<String> {
    let mount = whole(alloc, "", conditions, disks)?.disks.calls();
    let left = whole(alloc, lines, conditions, disks)?;
    let mut sights = Sights::new(alloc);
    for moment in 0..=left.disks.calls() {
        let out = if moment > mount { out } else { NO_DISK };
        see_picks(alloc, &left.disks, out, moment, &mut sights)?;
    }
    sights.told(alloc)
}

// What a stop at this moment leaves of what is loose.
fn pick_at(moment: u32) -> Pick {
    match moment % 4 {
        0 => Pick::Old,
        1 => Pick::New,
        2 => Pick::Filled(165),
        _ => Pick::Mixed,
    }
}

// Notes that for a stop at each moment of a mount of these disks, with this disk and without it.
fn see_mount(
    alloc: Global,
    disks: &MemRack,
    out: DiskNo,
    moment: u32,
    sights: &mut Sights,
) -> Option<()> {
    let mounted = whole(alloc, "", &Conditions::plain(alloc), disks)?.disks;
    for again in 0..=mounted.calls() {
        let left = stopped(alloc, &mounted, again, pick_at(again), &[])?;
        see(alloc, without(alloc, &left, out)?, moment, sights)?;
        see(alloc, left, moment, sights)?;
    }
    Some(())
}

/// What a run over all blocks tells after a stop at each moment of each mount of what a stop at
/// each moment past the mount of a run over these lines leaves. This disk is out.
pub fn stops_twice(
    alloc: Global,
    lines: &str,
    out: DiskNo,
    conditions: &Conditions,
    disks: &MemRack,
) -> Option<String> {
    let mount = whole(alloc, "", conditions, disks)?.disks.calls();
    let left = whole(alloc, lines, conditions, disks)?;
    let mut sights = Sights::new(alloc);
    for moment in mount..=left.disks.calls() {
        let image = stopped(alloc, &left.disks, moment, pick_at(moment), &[])?;
        see_mount(alloc, &image, out, moment, &mut sights)?;
    }
    sights.told(alloc)
}

/// What the program with these words tells over the last lines, after a stop at each moment of it
/// over the first ones.
pub fn leaves(
    alloc: Global,
    words: &str,
    first: &str,
    last: &str,
    conditions: &Conditions,
    disks: &MemRack,
) -> Option<String> {
    let (first, last) = (trace_of(alloc, first)?, trace_of(alloc, last)?);
    let left = ran(alloc, words, first.as_bytes(), conditions, disks)?;
    let none = Conditions::plain(alloc);
    let mut sights = Sights::new(alloc);
    for moment in 0..=left.disks.calls() {
        let image = stopped(alloc, &left.disks, moment, pick_at(moment), &[])?;
        let told = ran(alloc, words, last.as_bytes(), &none, &image)?;
        sights.note_run(alloc, &told, moment)?;
    }
    sights.told(alloc)
}
