//! Runs of the program over a source, a sink and disks in memory.

ghost use Rattle.std.specs.Prelude.{None};

use crate::lines::{digits_of, trace_before, trace_of};
use paraid_base::{DiskNo, Failed};
use paraid_gather::{Finished, Gathered};
use paraid_io::{MemSink, MemSource, Source};
use paraid_memrack::{MemRack, Pick, Planned};
use paraid_program::{ProgramEnd, paraid};
use std::alloc::Global;

/// The number of a call that no run here has. So many calls of a run are listed.
pub const NEVER: u32 = 4000;

/// Which calls fail, how many bytes one call of the source gives at most, and whether writes are
/// gathered.
#[derive(Drop)]
pub struct Conditions {
    pub disks: Vec<Planned>,
    pub source: u32,
    pub sink: u32,
    pub most: usize,
    pub gathers: bool,
}

impl Conditions {
    /// No call fails, and writes are not gathered.
    pub fn plain(alloc: Global) -> Conditions {
        Conditions {
            disks: Vec::new(alloc),
            source: NEVER,
            sink: NEVER,
            most: usize::MAX,
            gathers: false,
        }
    }

    /// One call of a disk fails.
    pub fn on_disk(alloc: Global, disk: DiskNo, nth: u32) -> Option<Conditions> {
        let disks = vec![in alloc; Planned::OnDisk { disk, nth }].ok()?;
        Some(Conditions {
            disks,
            source: NEVER,
            sink: NEVER,
            most: usize::MAX,
            gathers: false,
        })
    }
}

/// What a run leaves: its status, what it wrote, and the disks.
#[derive(Drop)]
pub struct Left {
    pub status: u8,
    pub text: String,
    pub disks: MemRack,
}

/// Slots without disks.
pub fn bare(alloc: Global, slots: u8) -> Option<MemRack> {
    if slots > 8 {
        return None;
    }
    MemRack::new(alloc, slots, 400, NEVER, Vec::new(alloc)).ok()
}

/// What a stop before this call leaves of disks, or the end where there are fewer. These calls
/// fail.
pub fn stopped(
    alloc: Global,
    disks: &MemRack,
    moment: u32,
    pick: Pick,
    plan: &[Planned],
) -> Option<MemRack> {
    let plan = plan.to_vec(alloc).ok()?;
    let moment = moment.min(disks.calls());
    disks.stopped(alloc, moment, pick, NEVER, plan).ok()
}

/// Disks as they are, before any call. These calls fail.
pub fn restarted(alloc: Global, disks: &MemRack, plan: &[Planned]) -> Option<MemRack> {
    stopped(alloc, disks, NEVER, Pick::New, plan)
}

fn list_of(alloc: Global, words: &str) -> Option<Vec<String>> {
    let mut list = Vec::new(alloc);
    for word in words.split_whitespace() {
        list.push(String::from_str(alloc, word).ok()?).ok()?;
    }
    Some(list)
}

// A source that gives at most so many bytes at a time.
#[derive(Drop)]
struct Pieces {
    source: MemSource,
    most: usize,
}

impl Source for Pieces {
    ghost faults = { λ s. ⟦<MemSource as Source>⟧.faults s.source };

    ghost left = { λ s. None };

    fn read_some(&mut self, into: &mut [u8]) -> Result<usize, Failed> {
        let most = self.most.max(1).min(into.len());
        self.source.read_some(&mut into[..most])
    }
}

// A source of this input.
fn source_of(alloc: Global, input: &[u8], conditions: &Conditions) -> Option<Pieces> {
    let bytes = input.to_vec(alloc).ok()?;
    let fails = vec![in alloc; conditions.source].ok()?;
    Some(Pieces {
        source: MemSource::new(bytes, fails),
        most: conditions.most,
    })
}

// A sink whose call of this number fails.
fn sink_of(alloc: Global, fails: u32) -> Option<MemSink> {
    let fails = vec![in alloc; fails].ok()?;
    MemSink::new(alloc, 65_536, fails).ok()
}

// What was written: the digits of the bytes that a client gets, and else the text.
fn written(alloc: Global, words: &str, sink: &MemSink) -> Option<String> {
    if words == "nbd" {
        return digits_of(alloc, sink.bytes());
    }
    let text = str::from_utf8(sink.bytes()).ok()?;
    String::from_str(alloc, text).ok()
}

// The program over disks on which no call was made, whose writes are gathered, as `main` calls it
// over files. The calls above are noted.
fn gathered(
    alloc: Global,
    words: &Vec<String>,
    source: &mut Pieces,
    sink: &mut MemSink,
    disks: MemRack,
) -> Option<ProgramEnd<MemRack>> {
    if disks.calls() != 0 {
        return None;
    }
    let log = disks.list(alloc).ok()?;
    let rack = Gathered::new(alloc, disks, log).ok()?;
    let ProgramEnd { status, rack } = paraid(alloc, words, source, sink, rack);
    let Finished { rack, log: _calls } = rack.finish();
    Some(ProgramEnd { status, rack })
}

// The program over these disks.
fn called(
    alloc: Global,
    words: &Vec<String>,
    source: &mut Pieces,
    sink: &mut MemSink,
    disks: MemRack,
    gathers: bool,
) -> Option<ProgramEnd<MemRack>> {
    if gathers {
        return gathered(alloc, words, source, sink, disks);
    }
    Some(paraid(alloc, words, source, sink, disks))
}

// What the program does with these words over this input and these disks. These calls of the source
// and of the sink fail.
fn ran_on(
    alloc: Global,
    words: &str,
    input: &[u8],
    conditions: &Conditions,
    disks: MemRack,
) -> Option<Left> {
    let list = list_of(alloc, words)?;
    let mut source = source_of(alloc, input, conditions)?;
    let mut sink = sink_of(alloc, conditions.sink)?;
    let ProgramEnd {
        status,
        rack: disks,
    } = called(
        alloc,
        &list,
        &mut source,
        &mut sink,
        disks,
        conditions.gathers,
    )?;
    let text = written(alloc, words, &sink)?;
    Some(Left {
        status,
        text,
        disks,
    })
}

/// A run over the lines of this text to their end, in which no call fails.
pub fn played(alloc: Global, text: &str, disks: MemRack) -> Option<Left> {
    let trace = trace_of(alloc, text)?;
    ran_on(
        alloc,
        "run",
        trace.as_bytes(),
        &Conditions::plain(alloc),
        disks,
    )
}

/// What the program does with these words over this input and these disks, which stay as they are.
pub fn ran(
    alloc: Global,
    words: &str,
    input: &[u8],
    conditions: &Conditions,
    disks: &MemRack,
) -> Option<Left> {
    let disks = restarted(alloc, disks, &conditions.disks)?;
    ran_on(alloc, words, input, conditions, disks)
}

/// A check of these disks, in which no call fails.
pub fn checked(alloc: Global, disks: MemRack) -> Option<Left> {
    ran_on(alloc, "check", b"", &Conditions::plain(alloc), disks)
}

/// What these words and then a check tell, on a new array of eight disks of up to 17516 blocks,
/// none of whose calls is listed, with the greater status.
pub fn unlisted(alloc: Global, words: &str, configuration: &str) -> Option<Left> {
    let bare = MemRack::new(alloc, 8, 17_516, 0, Vec::new(alloc)).ok()?;
    let conditions = Conditions::plain(alloc);
    let made = ran_on(alloc, "format", configuration.as_bytes(), &conditions, bare)?;
    let left = ran_on(alloc, words, b"", &conditions, made.disks)?;
    let mut text = left.text;
    let found = checked(alloc, left.disks)?;
    text.push_str(found.text.as_str()).ok()?;
    Some(Left {
        status: left.status.max(found.status),
        text,
        disks: found.disks,
    })
}

/// A run over the lines of this text to their end.
pub fn whole(alloc: Global, text: &str, conditions: &Conditions, disks: &MemRack) -> Option<Left> {
    let trace = trace_of(alloc, text)?;
    ran(alloc, "run", trace.as_bytes(), conditions, disks)
}

/// The same, with no newline at the end.
pub fn unended(
    alloc: Global,
    text: &str,
    conditions: &Conditions,
    disks: &MemRack,
) -> Option<Left> {
    let mut trace = trace_of(alloc, text)?;
    let _newline = trace.pop();
    ran(alloc, "run", trace.as_bytes(), conditions, disks)
}

// A run that is cut off after this trace, with no flush at its end: the source fails there.
fn cut(alloc: Global, trace: &String, conditions: &Conditions, disks: &MemRack) -> Option<Left> {
    let disks = restarted(alloc, disks, &conditions.disks)?;
    let mut streams = Conditions::plain(alloc);
    streams.source = 1;
    streams.sink = conditions.sink;
    streams.gathers = conditions.gathers;
    ran_on(alloc, "run", trace.as_bytes(), &streams, disks)
}

/// A run that is cut off after the lines of this text.
pub fn cut_off(
    alloc: Global,
    text: &str,
    conditions: &Conditions,
    disks: &MemRack,
) -> Option<Left> {
    cut(alloc, &trace_of(alloc, text)?, conditions, disks)
}

/// A run that is cut off before the last of them.
pub fn cut_before(
    alloc: Global,
    text: &str,
    conditions: &Conditions,
    disks: &MemRack,
) -> Option<Left> {
    cut(alloc, &trace_before(alloc, text)?, conditions, disks)
}
