//! What is told of the calls of a run, and of the places of its disks.

use crate::lines::add_word;
use crate::runs::Left;
use paraid_base::{DiskNo, Place};
use paraid_memrack::MemRack;
use paraid_rack::{Call, Rack};
use std::alloc::Global;

// Which kind of call it is.
fn kind_of(call: &Call) -> u8 {
    match call {
        Call::Read { .. } => 0,
        Call::Write { .. } => 1,
        Call::Sync { .. } => 2,
        Call::Park { .. } => 3,
        Call::SpinUp { .. } => 4,
        Call::Attach { .. } => 5,
    }
}

fn kind_name(kind: u8) -> &'static str {
    match kind {
        0 => "reads",
        1 => "writes",
        2 => "syncs",
        3 => "parks",
        4 => "ups",
        _ => "attaches",
    }
}

// How many calls from this one on are of this kind.
fn count_of(disks: &MemRack, first: u32, kind: u8) -> u32 {
    let mut count = 0u32;
    for at in first..disks.calls() {
        if kind_of(disks.call(at)) == kind {
            count = count.saturating_add(1);
        }
    }
    count
}

// Adds how many calls are of this kind, if any.
fn add_count(alloc: Global, text: &mut String, count: u32, kind: u8) -> Option<()> {
    if count == 0 {
        return Some(());
    }
    let name = kind_name(kind);
    let word = format!(in alloc; "{name} {count}").ok()?;
    add_word(text, word.as_str())
}

/// The calls from this one on, by kind.
pub fn counted(alloc: Global, disks: &MemRack, first: u32) -> Option<String> {
    let mut text = String::new(alloc);
    for kind in 0..6u8 {
        add_count(alloc, &mut text, count_of(disks, first, kind), kind)?;
    }
    or_word(text, "no call")
}

// This text, or a word where it is empty.
fn or_word(mut text: String, word: &str) -> Option<String> {
    if text.as_str().is_empty() {
        text.push_str(word).ok()?;
    }
    Some(text)
}

// The last answer of a run that was cut off: its last line tells of the source.
fn last_answer(text: &str) -> Option<&str> {
    let mut answer = None;
    let mut last = None;
    for line in text.lines() {
        answer = last;
        last = Some(line);
    }
    match last {
        Some("source") => answer,
        _ => None,
    }
}

fn with_answer(alloc: Global, answer: &str, disks: &MemRack, first: u32) -> Option<String> {
    let calls = counted(alloc, disks, first)?;
    format!(in alloc; "{answer}: {calls}").ok()
}

/// The last answer of a run that was cut off, and the calls from this one on.
pub fn priced(alloc: Global, left: &Left, first: u32) -> Option<String> {
    let answer = last_answer(left.text.as_str())?;
    with_answer(alloc, answer, &left.disks, first)
}

/// The first line of a run, and all its calls.
pub fn priced_mount(alloc: Global, left: &Left) -> Option<String> {
    let (answer, _others) = left.text.as_str().split_once('\n')?;
    with_answer(alloc, answer, &left.disks, 0)
}

fn call_word(alloc: Global, call: &Call) -> Option<String> {
    match call {
        Call::Read { place, .. } => format!(in alloc; "r{place}").ok(),
        Call::Write { place, .. } => format!(in alloc; "w{place}").ok(),
        Call::Sync { .. } => String::from_str(alloc, "s").ok(),
        Call::Park { .. } => String::from_str(alloc, "p").ok(),
        Call::SpinUp { .. } => String::from_str(alloc, "u").ok(),
        Call::Attach { .. } => String::from_str(alloc, "a").ok(),
    }
}

/// The calls on this disk, in their order.
pub fn calls_on(alloc: Global, disks: &MemRack, disk: DiskNo) -> Option<String> {
    let mut text = String::new(alloc);
    for at in 0..disks.calls() {
        let call = disks.call(at);
        if call.disk() == disk {
            add_word(&mut text, call_word(alloc, call)?.as_str())?;
        }
    }
    or_word(text, "none")
}

// The first place past the log.
const PAST_LOG: Place = 100;

// Adds a place of a disk.
fn add_place(alloc: Global, text: &mut String, disk: DiskNo, place: Place) -> Option<()> {
    let word = format!(in alloc; "{disk}:{place}").ok()?;
    add_word(text, word.as_str())
}

/// The writes past the log, in their order.
pub fn changes_in(alloc: Global, disks: &MemRack) -> Option<String> {
    let mut text = String::new(alloc);
    for at in 0..disks.calls() {
        if let Call::Write { disk, place, .. } = disks.call(at) {
            if *place >= PAST_LOG {
                add_place(alloc, &mut text, *disk, *place)?;
            }
        }
    }
    or_word(text, "none")
}

// Adds the places of this disk past the log that hold other bytes than zeros.
fn add_places(alloc: Global, text: &mut String, disks: &MemRack, disk: DiskNo) -> Option<()> {
    if disk >= disks.slots() {
        return Some(());
    }
    for place in PAST_LOG..disks.size(disk) {
        if disks.block(disk, place).bytes.iter().any(|byte| *byte != 0) {
            add_place(alloc, text, disk, place)?;
        }
    }
    Some(())
}

/// The places past the log that hold other bytes than zeros.
pub fn places_on(alloc: Global, disks: &MemRack) -> Option<String> {
    let mut text = String::new(alloc);
    for disk in 0..8u8 {
        add_places(alloc, &mut text, disks, disk)?;
    }
    or_word(text, "none")
}
