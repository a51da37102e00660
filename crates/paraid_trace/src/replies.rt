//! The line that tells an answer.
ghost use Rattle.std.specs.Prelude.{◌≡◌, ◌+◌, ◌*◌, ◌≤◌, [], ◌++◌, length, codes, decimal};
ghost use Rattle.paraid_base.specs.declared.event.Answer.TheVariants.{State};
ghost use Rattle.paraid_trace.specs.Answered.{answer_of, answer_with};
ghost use Rattle.paraid_trace.specs.BlockTexts.{block_text};
ghost use Rattle.paraid_trace.specs.Replies.{HasFewDisks, answer_text, halt_text, reply_of};
ghost use Rattle.paraid_trace.specs.StateTexts.{numbers_text, out_text, phase_text, state_text};
ghost use Rattle.paraid_trace.specs.TickTexts.{tick_text, tick_word as word_of};

use crate::{Answered, Beside, Brief, Text};
use paraid_base::{Block, GearReport, Halt, Out, Phase, Status, TickEvent};

/// Makes the text the line that tells a brief answer, with its newline.
#[tactic(auto, unfolding(crate::specs::Replies::reply_of))]
pub fn reply(brief: &Brief, into: &mut Text)
    ensures value { into.new ≡ reply_of (answer_of brief.now) }
    ensures length { length into.new ≤ 1101 }
{
    into.clear();
    tell(brief, into);
    into.push(b"\n");
}

/// The same for the state of an array of at most 8 disks.
#[tactic(auto, unfolding(crate::specs::Replies::reply_of, crate::specs::Replies::answer_text))]
pub fn reply_state(status: &Status, disks: u8, into: &mut Text)
    requires disks { disks ≤ 8 }
    ensures value { into.new ≡ reply_of (State status.now disks) }
    ensures length { length into.new ≤ 1101 }
{
    into.clear();
    tell_state(status, disks, into);
    into.push(b"\n");
}

/// The same for an answer with what stands beside it. A state is of at most 8 disks.
#[tactic(auto, unfolding(crate::specs::Replies::reply_of))]
pub fn reply_with(answered: &Answered, beside: &Beside, into: &mut Text)
    requires disks { HasFewDisks (answer_with answered.now beside.now) }
    ensures value { into.new ≡ reply_of (answer_with answered.now beside.now) }
    ensures length { length into.new ≤ 1101 }
{
    into.clear();
    tell_with(answered, beside, into);
    into.push(b"\n");
}

// The text of an answer, at the end of an empty text.
#[tactic(auto, unfolding(crate::specs::Replies::answer_text))]
fn tell_with(answered: &Answered, beside: &Beside, into: &mut Text)
    requires empty { into.old ≡ [] }
    requires disks { HasFewDisks (answer_with answered.now beside.now) }
    ensures value { into.new ≡ answer_text (answer_with answered.now beside.now) }
    ensures length { length into.new ≤ 1100 }
{
    match answered {
        Answered::Value { block } => tell_value(*block, &beside.bytes, into),
        Answered::State { disks } => tell_state(&beside.status, *disks, into),
        Answered::Brief(brief) => tell(brief, into),
    }
}

// The text of a brief answer, at the end of an empty text.
#[tactic(auto, unfolding(crate::specs::Replies::answer_text))]
fn tell(brief: &Brief, into: &mut Text)
    requires empty { into.old ≡ [] }
    ensures value { into.new ≡ answer_text (answer_of brief.now) }
    ensures length { length into.new ≤ 1100 }
{
    match brief {
        Brief::NoBlock { block } => tell_number(b"noblock ", u64::from(*block), into),
        Brief::Wrote { number } => tell_number(b"wrote ", *number, into),
        Brief::Flushed { writes } => tell_number(b"flushed ", *writes, into),
        Brief::Ticked(report) => tell_tick(report, into),
        Brief::Shift { gear, to } => tell_shift(*gear, *to, into),
        Brief::Top => into.push(b"top"),
        Brief::Lowest => into.push(b"lowest"),
        Brief::Shifting { to } => tell_number(b"shifting ", u64::from(*to), into),
        Brief::Failed { disk } => tell_number(b"failed ", u64::from(*disk), into),
        Brief::Replaced { disk } => tell_number(b"replaced ", u64::from(*disk), into),
        Brief::NoDisk { disk } => tell_number(b"nodisk ", u64::from(*disk), into),
        Brief::Out { disk } => tell_number(b"out ", u64::from(*disk), into),
        Brief::NotOut { disk } => tell_number(b"notout ", u64::from(*disk), into),
        Brief::NoFresh { disk } => tell_number(b"nofresh ", u64::from(*disk), into),
        Brief::Ration { disk } => tell_number(b"ration ", u64::from(*disk), into),
        Brief::Energy { total } => tell_number(b"energy ", *total, into),
        Brief::Bad => into.push(b"bad"),
        Brief::Halted(halt) => tell_halt(halt, into),
    }
}

// A word with its space, and a number.
fn tell_number(word: &[u8], n: u64, into: &mut Text)
    requires { length into.old + length word.now ≤ 1160 }
    ensures value { into.new ≡ into.old ++ (word.now ++ decimal n) }
    ensures length { length into.new ≤ length into.old + length word.now + 40 }
{
    into.push(word);
    into.push_number(n);
}

fn tell_value(block: u32, bytes: &Block, into: &mut Text)
    requires { into.old ≡ [] }
    ensures value { into.new ≡ decimal block ++ codes "=" ++ block_text bytes.now }
    ensures length { length into.new ≤ 1100 }
{
    into.push_number(u64::from(block));
    into.push(b"=");
    into.push_block(bytes);
}

fn tell_shift(gear: u8, to: u8, into: &mut Text)
    requires { into.old ≡ [] }
    ensures value { into.new ≡ codes "shift " ++ decimal gear ++ codes " " ++ decimal to }
    ensures length { length into.new ≤ 1100 }
{
    into.push(b"shift ");
    into.push_number(u64::from(gear));
    into.push(b" ");
    into.push_number(u64::from(to));
}

fn tell_halt(halt: &Halt, into: &mut Text)
    requires { into.old ≡ [] }
    ensures value { into.new ≡ halt_text halt.now }
    ensures length { length into.new ≤ 1100 }
{
    match halt {
        Halt::Two(two) => {
            into.push(b"two ");
            into.push_number(u64::from(two.first));
            into.push(b" ");
            into.push_number(u64::from(two.second));
        }
        Halt::Worn { count } => tell_number(b"worn ", *count, into),
    }
}

fn tell_tick(report: &GearReport, into: &mut Text)
    requires { into.old ≡ [] }
    ensures value { into.new ≡ tick_text report.now }
    ensures length { length into.new ≤ 1100 }
{
    into.push(b"tick ");
    into.push_number(u64::from(report.gear));
    into.push(b" moved ");
    into.push_number(u64::from(report.moved));
    into.push(b" ");
    tell_tick_event(&report.event, into);
}

fn tell_tick_event(event: &TickEvent, into: &mut Text)
    requires { length into.old ≤ 1000 }
    ensures value { into.new ≡ into.old ++ word_of event.now }
    ensures length { length into.new ≤ length into.old + 50 }
{
    match event {
        TickEvent::Steady => into.push(b"steady"),
        TickEvent::Waiting => into.push(b"waiting"),
        TickEvent::Moving => into.push(b"moving"),
        TickEvent::Flipped => into.push(b"flipped"),
        TickEvent::Begun { to } => tell_number(b"begun ", u64::from(*to), into),
        TickEvent::Rebuilt { disk } => tell_number(b"rebuilt ", u64::from(*disk), into),
        TickEvent::Gone { disk } => tell_number(b"gone ", u64::from(*disk), into),
        TickEvent::Lost { disk } => tell_number(b"lost ", u64::from(*disk), into),
        TickEvent::Ration { disk } => tell_number(b"ration ", u64::from(*disk), into),
    }
}

fn tell_state(status: &Status, disks: u8, into: &mut Text)
    requires empty { into.old ≡ [] }
    requires disks { disks ≤ 8 }
    ensures value { into.new ≡ state_text status.now disks }
    ensures length { length into.new ≤ 1100 }
{
    into.push(b"state ");
    into.push_number(u64::from(status.gear));
    into.push(b" ");
    tell_phase(&status.phase, into);
    into.push(b" dirty ");
    into.push_number(u64::from(status.dirty));
    into.push(b" fill ");
    into.push_number(u64::from(status.fill));
    into.push(b" out ");
    tell_out(&status.out, into);
    into.push(b" spins");
    tell_spins(&status.spins[..disks as usize], into);
}

fn tell_phase(phase: &Phase, into: &mut Text)
    requires { length into.old ≤ 1000 }
    ensures value { into.new ≡ into.old ++ phase_text phase.now }
    ensures length { length into.new ≤ length into.old + 50 }
{
    match phase {
        Phase::Steady => into.push(b"steady"),
        Phase::Down { to } => tell_number(b"down ", u64::from(*to), into),
        Phase::Up { to } => tell_number(b"up ", u64::from(*to), into),
    }
}

fn tell_out(out: &Out, into: &mut Text)
    requires { length into.old ≤ 1000 }
    ensures value { into.new ≡ into.old ++ out_text out.now }
    ensures length { length into.new ≤ length into.old + 90 }
{
    match out {
        Out::No => into.push(b"none"),
        Out::Gone { disk } => {
            into.push_number(u64::from(*disk));
            into.push(b" gone");
        }
        Out::Fresh { disk, rebuilt } => {
            into.push_number(u64::from(*disk));
            into.push(b" rebuilt ");
            into.push_number(u64::from(*rebuilt));
        }
    }
}

// One space and a number for each disk.
fn tell_spins(spins: &[u16], into: &mut Text)
    requires old { length into.old ≤ 700 }
    requires few { length spins.now ≤ 8 }
    ensures value { into.new ≡ into.old ++ numbers_text spins.now }
    ensures length { length into.new ≤ length into.old + 41 * length spins.now }
{
    for count in spins {
        into.push(b" ");
        into.push_number(u64::from(*count));
    }
}
