//! The disks, the configuration and the conditions to come, and what each line of the script makes
//! of them.

use crate::changes::{byte_at, changed, put_back, without};
use crate::lines::{
    bytes_by_digits, bytes_of, configured, first_byte, first_number, first_word, is_any, trace_of,
};
use crate::moments::{Sights, ended, leaves, stops, stops_twice};
use crate::runs::{
    Conditions, Left, bare, cut_before, cut_off, ran, restarted, stopped, unended, unlisted, whole,
};
use crate::tallies::{calls_on, changes_in, counted, places_on, priced, priced_mount};
use paraid_memrack::{MemRack, Pick, Planned};
use paraid_rack::Rack;
use std::alloc::Global;

/// What stands between two lines of the script.
#[derive(Drop)]
pub struct Stage {
    configuration: String,
    disks: MemRack,
    /// All disks as they were when they were last set aside.
    kept: MemRack,
    /// Those of the next command that runs the program: which calls fail in it, and how it is run.
    conditions: Conditions,
}

/// What kind of command a line is.
enum Kind {
    Remark,
    Configure,
    Make,
    Change,
    Plan,
    Run,
}

fn kind_of(word: &str) -> Kind {
    if word.is_empty() || word == "#" {
        Kind::Remark
    } else if is_any(word, "config set unset add pad") {
        Kind::Configure
    } else if is_any(word, "bare array lose keep back") {
        Kind::Make
    } else if is_any(word, "park fresh fill byte") {
        Kind::Change
    } else if is_any(word, "fail failcall source sink pieces gather") {
        Kind::Plan
    } else {
        Kind::Run
    }
}

// The number of slots that is asked for.
fn slots_of(text: &str) -> u8 {
    if text.is_empty() {
        return 5;
    }
    first_byte(text).0
}

// What a run has told, with its status where that is not 0.
fn with_status(alloc: Global, mut text: String, status: u8) -> Option<String> {
    if status != 0 {
        let line = format!(in alloc; "status {status}\n").ok()?;
        text.push_str(line.as_str()).ok()?;
    }
    Some(text)
}

// A new array, before any call.
fn array(alloc: Global, configuration: &str, slots: u8) -> Option<MemRack> {
    let disks = bare(alloc, slots)?;
    let input = configuration.as_bytes();
    let left = ran(alloc, "format", input, &Conditions::plain(alloc), &disks)?;
    if left.status != 0 {
        return None;
    }
    restarted(alloc, &left.disks, &[])
}

// What an event costs, which is the last of these lines.
fn cost(alloc: Global, lines: &str, conditions: &Conditions, disks: &MemRack) -> Option<String> {
    let first = cut_before(alloc, lines, conditions, disks)?.disks.calls();
    priced(alloc, &cut_off(alloc, lines, conditions, disks)?, first)
}

// What a stop before a call of a run leaves, which is cut off after these lines. The number of the
// call comes first.
fn stop(alloc: Global, text: &str, conditions: &Conditions, disks: &MemRack) -> Option<MemRack> {
    let (moment, lines) = first_number(text);
    let left = cut_off(alloc, lines, conditions, disks)?;
    stopped(alloc, &left.disks, moment, Pick::New, &[])
}

// The calls on a disk in a run. The number of the disk comes first.
fn calls(alloc: Global, text: &str, conditions: &Conditions, disks: &MemRack) -> Option<String> {
    let (disk, lines) = first_byte(text);
    calls_on(alloc, &whole(alloc, lines, conditions, disks)?.disks, disk)
}

// The first line and the calls of a mount.
fn mount(alloc: Global, conditions: &Conditions, disks: &MemRack) -> Option<String> {
    priced_mount(alloc, &whole(alloc, "", conditions, disks)?)
}

// The writes past the log in a run.
fn changes(alloc: Global, lines: &str, conditions: &Conditions, disks: &MemRack) -> Option<String> {
    changes_in(alloc, &whole(alloc, lines, conditions, disks)?.disks)
}

// The places past the log that a run leaves.
fn places(alloc: Global, lines: &str, conditions: &Conditions, disks: &MemRack) -> Option<String> {
    places_on(alloc, &whole(alloc, lines, conditions, disks)?.disks)
}

// What is told after stops. The number of a disk comes first.
fn told_stops(
    alloc: Global,
    word: &str,
    text: &str,
    conditions: &Conditions,
    disks: &MemRack,
) -> Option<String> {
    let (out, lines) = first_byte(text);
    if word == "stops" {
        return stops(alloc, lines, out, conditions, disks);
    }
    stops_twice(alloc, lines, out, conditions, disks)
}

// What these words tell over the lines after the second `<`, after stops in them over those after
// the first one.
fn told_leaves(
    alloc: Global,
    text: &str,
    conditions: &Conditions,
    disks: &MemRack,
) -> Option<String> {
    let (words, lines) = text.split_once(" < ")?;
    let (first, last) = lines.split_once(" < ")?;
    leaves(alloc, words, first, last, conditions, disks)
}

// What these words tell, and a check after them.
fn long(alloc: Global, words: &str, configuration: &str) -> Option<String> {
    let left = unlisted(alloc, words, configuration)?;
    with_status(alloc, left.text, left.status)
}

// This call of the source or of the sink fails.
fn on_stream(alloc: Global, word: &str, nth: u32) -> Conditions {
    let mut conditions = Conditions::plain(alloc);
    if word == "source" {
        conditions.source = nth;
    } else {
        conditions.sink = nth;
    }
    conditions
}

impl Stage {
    /// Five slots without disks.
    pub fn new(alloc: Global) -> Option<Stage> {
        let configuration = configured(alloc, "", "config", "")?;
        let disks = bare(alloc, 5)?;
        let kept = bare(alloc, 5)?;
        let conditions = Conditions::plain(alloc);
        Some(Stage {
            configuration,
            disks,
            kept,
            conditions,
        })
    }

    /// Plays a line, and gives what it tells. `None` is of a line that is no command, or was not
    /// done.
    pub fn play(&mut self, alloc: Global, line: &str) -> Option<String> {
        let (word, rest) = first_word(line);
        match kind_of(word) {
            Kind::Remark => {}
            Kind::Configure => self.configure(alloc, word, rest)?,
            Kind::Make => self.make(alloc, word, rest)?,
            Kind::Change => self.change(alloc, word, rest)?,
            Kind::Plan => self.plan(word, rest)?,
            Kind::Run => return self.play_run(alloc, word, rest),
        }
        Some(String::new(alloc))
    }

    fn configure(&mut self, alloc: Global, word: &str, rest: &str) -> Option<()> {
        self.configuration = configured(alloc, self.configuration.as_str(), word, rest)?;
        Some(())
    }

    fn make(&mut self, alloc: Global, word: &str, rest: &str) -> Option<()> {
        if word == "keep" {
            self.kept = restarted(alloc, &self.disks, &[])?;
            return Some(());
        }
        self.disks = match word {
            "bare" => bare(alloc, slots_of(rest))?,
            "array" => array(alloc, self.configuration.as_str(), slots_of(rest))?,
            "back" => put_back(alloc, &self.disks, &self.kept, first_byte(rest).0)?,
            _ => without(alloc, &self.disks, first_byte(rest).0)?,
        };
        Some(())
    }

    fn change(&mut self, alloc: Global, word: &str, rest: &str) -> Option<()> {
        self.disks = changed(alloc, &self.disks, word, rest)?;
        Some(())
    }

    fn plan(&mut self, word: &str, rest: &str) -> Option<()> {
        let (nth, _rest) = first_number(rest);
        match word {
            "source" => self.conditions.source = nth,
            "sink" => self.conditions.sink = nth,
            "pieces" => self.conditions.most = nth as usize,
            "gather" => self.conditions.gathers = true,
            "failcall" => self.conditions.disks.push(Planned::AtCall(nth)).ok()?,
            _ => {
                let (disk, rest) = first_byte(rest);
                let (nth, _rest) = first_number(rest);
                self.conditions
                    .disks
                    .push(Planned::OnDisk { disk, nth })
                    .ok()?;
            }
        }
        Some(())
    }

    // Plays a command that runs the program.
    fn play_run(&mut self, alloc: Global, word: &str, rest: &str) -> Option<String> {
        let told = if is_any(word, "run part bytes ends client paraid") {
            self.run(alloc, word, rest)
        } else if word == "stop" {
            self.stop(alloc, rest)
        } else {
            self.tell(alloc, word, rest)
        };
        self.conditions = Conditions::plain(alloc);
        told
    }

    fn left_by(
        &self,
        alloc: Global,
        word: &str,
        rest: &str,
        conditions: &Conditions,
    ) -> Option<Left> {
        match word {
            "run" => whole(alloc, rest, conditions, &self.disks),
            "part" => unended(alloc, rest, conditions, &self.disks),
            "ends" => ended(alloc, rest, conditions, &self.disks),
            "bytes" => self.left_by_bytes(alloc, "run", bytes_of(alloc, rest)?, conditions),
            "client" => self.left_by_bytes(alloc, "nbd", bytes_by_digits(alloc, rest)?, conditions),
            _ => self.left_by_words(alloc, rest, conditions),
        }
    }

    fn left_by_bytes(
        &self,
        alloc: Global,
        words: &str,
        bytes: Vec<u8>,
        conditions: &Conditions,
    ) -> Option<Left> {
        ran(alloc, words, bytes.as_slice(), conditions, &self.disks)
    }

    // What the program does with these words over the lines after a `<`, or over the configuration.
    fn left_by_words(&self, alloc: Global, text: &str, conditions: &Conditions) -> Option<Left> {
        match text.split_once(" <") {
            Some((words, lines)) => {
                let trace = trace_of(alloc, lines.trim_start())?;
                ran(alloc, words, trace.as_bytes(), conditions, &self.disks)
            }
            None => {
                let input = self.configuration.as_bytes();
                ran(alloc, text, input, conditions, &self.disks)
            }
        }
    }

    // Notes what a command that runs the program tells where these calls fail.
    fn see(
        &self,
        alloc: Global,
        command: &str,
        conditions: &Conditions,
        nth: u32,
        sights: &mut Sights,
    ) -> Option<()> {
        let (word, rest) = first_word(command);
        let left = self.left_by(alloc, word, rest, conditions)?;
        sights.note_run(alloc, &left, nth)
    }

    // Notes that where the call of this number of each disk fails.
    fn see_disks(&self, alloc: Global, command: &str, nth: u32, sights: &mut Sights) -> Option<()> {
        for disk in 0..self.disks.slots() {
            let mut conditions = Conditions::on_disk(alloc, disk, nth)?;
            conditions.gathers = self.conditions.gathers;
            self.see(alloc, command, &conditions, nth, sights)?;
        }
        Some(())
    }

    // What a command that runs the program tells as each of so many calls fails: of each disk, or
    // of the source or the sink where the command comes after that word.
    fn each(&self, alloc: Global, rest: &str) -> Option<String> {
        let (count, rest) = first_number(rest);
        let (word, command) = first_word(rest);
        let mut sights = Sights::new(alloc);
        for nth in 0..count {
            if is_any(word, "source sink") {
                let conditions = on_stream(alloc, word, nth);
                self.see(alloc, command, &conditions, nth, &mut sights)?;
            } else {
                self.see_disks(alloc, rest, nth, &mut sights)?;
            }
        }
        sights.told(alloc)
    }

    fn run(&mut self, alloc: Global, word: &str, rest: &str) -> Option<String> {
        let Left {
            status,
            text,
            disks,
        } = self.left_by(alloc, word, rest, &self.conditions)?;
        self.disks = disks;
        with_status(alloc, text, status)
    }

    fn stop(&mut self, alloc: Global, rest: &str) -> Option<String> {
        self.disks = stop(alloc, rest, &self.conditions, &self.disks)?;
        Some(String::new(alloc))
    }

    // What a command tells that leaves the disks as they are.
    fn tell(&self, alloc: Global, word: &str, rest: &str) -> Option<String> {
        let (conditions, disks) = (&self.conditions, &self.disks);
        match word {
            "cost" => cost(alloc, rest, conditions, disks),
            "mount" => mount(alloc, conditions, disks),
            "calls" => calls(alloc, rest, conditions, disks),
            "changes" => changes(alloc, rest, conditions, disks),
            "places" => places(alloc, rest, conditions, disks),
            "made" => counted(alloc, disks, 0),
            "stops" | "again" => told_stops(alloc, word, rest, conditions, disks),
            "leaves" => told_leaves(alloc, rest, conditions, disks),
            "each" => self.each(alloc, rest),
            "long" => long(alloc, rest, self.configuration.as_str()),
            "look" => byte_at(alloc, disks, rest),
            _ => None,
        }
    }
}
