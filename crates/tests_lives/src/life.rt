//! A life of an array: it is made on new disks, and a trace is run on it.
ghost use Rattle.std.specs.Prelude.{◌≡◌, ◌∷◌, [], map, Some, IfSome, string_bytes};
ghost use Rattle.std.specs.List.{list_all};
ghost use Rattle.paraid_recover.specs.Between.{RanBetween};
ghost use Rattle.paraid_record.specs.declared.meta.Setup.{Setup as SetupType};
ghost use Rattle.paraid_memrack.specs.Rules.{rack_slot_count, told_of};
ghost use Rattle.paraid_commands.specs.Outcome.{BecomesEmpty};
ghost use Rattle.tests_lives.specs.Life.{RunAnswers, IsLife, is_done_or_on};

use paraid_base::DiskNo;
use paraid_io::{MemSink, MemSource};
use paraid_memrack::{MemRack, Planned};
use paraid_program::{ProgramEnd, paraid};
use paraid_rack::Call;
use std::alloc::Global;

// Five disks and five rows, in gears of four and of five disks.
const CONFIGURATION: &[u8] =
    b"disks = 5\nrows = 5\ngears = [4, 5]\nmode = \"whole\"\nrate = 1\nservice = 100\n\
    up = 80\ndown = 60\nwindows = [1000]\nration = 100\nspinning_mj = 9000\nparked_mj = 900\n\
    spinup_mj = 60000\n";

/// The calls of a run that are listed at most.
const CALLS: u32 = 4000;

// A command line of one word.
fn command_words(alloc: Global, text: &str) -> Option<Vec<String>>
    ensures { IfSome result (λ words. map string_bytes words.items ≡ text.now ∷ []) }
{
    let word = String::from_str(alloc, text).ok()?;
    vec![in alloc; word].ok()
}

// Makes an array of new disks.
fn new_array(alloc: Global, rack: MemRack) -> Option<MemRack>
    ensures made { IfSome result (λ made. (setup : SetupType) × RanBetween (told_of rack)
        (told_of made) (BecomesEmpty (rack_slot_count rack) setup)) }
    ensures slots { IfSome result (λ made. rack_slot_count made ≡ rack_slot_count rack) }
{
    let words = command_words(alloc, "format")?;
    let bytes = CONFIGURATION.to_vec(alloc).ok()?;
    let mut source = MemSource::new(bytes, Vec::new(alloc));
    let mut sink = MemSink::new(alloc, 4_096, Vec::new(alloc)).ok()?;
    let ProgramEnd { status, rack } = paraid(alloc, &words, &mut source, &mut sink, rack);
    if status != 0 {
        return None;
    }
    Some(rack)
}

/// What a run leaves: the text that it wrote, and the disks.
#[derive(Drop)]
pub struct Left {
    text: Vec<u8>,
    disks: MemRack,
}

// Runs a trace to its end.
fn run_trace(alloc: Global, lines: &[u8], rack: MemRack) -> Option<Left>
    ensures { IfSome result (λ left. RunAnswers (rack_slot_count rack) (told_of rack)
        (told_of left.disks) lines.now left.text.items) }
{
    let words = command_words(alloc, "run")?;
    let bytes = lines.to_vec(alloc).ok()?;
    let mut source = MemSource::new(bytes, Vec::new(alloc));
    let mut sink = MemSink::new(alloc, 65_536, Vec::new(alloc)).ok()?;
    let ProgramEnd {
        status,
        rack: disks,
    } = paraid(alloc, &words, &mut source, &mut sink, rack);
    if status != 0 {
        return None;
    }
    let text = sink.bytes().to_vec(alloc).ok()?;
    Some(Left { text, disks })
}

// Whether all calls were done but some on this disk.
fn fail_only_on(calls: &[Call], disk: DiskNo) -> bool
    ensures { result ≡ list_all (is_done_or_on disk) calls.now }
{
    calls
        .iter()
        .all(|call| call.is_done() || call.disk() == disk)
}

/// What a run over these lines on a new array tells, as this plan has calls fail. `None` is of a
/// run that did not end well, or in which a call failed on another disk than `weak`.
pub fn live(alloc: Global, lines: &[u8], plan: Vec<Planned>, weak: DiskNo) -> Option<Vec<u8>>
    ensures { IfSome result (λ text. IsLife 5 lines.now text.items) }
{
    let bare = MemRack::new(alloc, 5, 400, CALLS, plan).ok()?;
    let made = new_array(alloc, bare)?;
    let left = run_trace(alloc, lines, made)?;
    let calls = left.disks.told_calls()?;
    if !fail_only_on(calls, weak) {
        return None;
    }
    Some(left.text)
}
