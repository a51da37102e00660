//! Lines are read from a source through a buffer of fixed size.
ghost use Rattle.std.specs.Prelude.{◌≡◌, ◌≢◌, ◌+◌, ◌-◌, ◌^◌, ◌<◌, ◌≤◌, [], ◌∷◌, ◌++◌, length, take, drop, IfSome, IfNone, IfOk, OnErr, ◌==◌};
ghost use Rattle.paraid_base.specs.Told.{Gives, HasRisen, stream_most};
ghost use Rattle.paraid_io.specs.Lines.{NoNewline};
ghost use Rattle.paraid_io.specs.Reading.{Reading, fresh_reader, ReaderTakes, ReaderStep, HasCause, NeedsNoCall};

use crate::scan::{PIECE, make_room, newline_at};
use crate::{Line, LineFault, Source};
use paraid_base::Failed;
use std::marker::Model;

/// How many bytes a reader holds at most.
const BUFFER: usize = 2 * PIECE;

/// The longest line that is held, in bytes.
pub const MAX_LINE: usize = 1100;

/// How many bytes are taken at most, 2^40.
pub const MAX_TAKEN: u64 = 1 << 40;

/// Reads lines from a source through a buffer of fixed size. It takes no memory, and looks at each
/// byte once for a newline.
#[derive(Drop)]
pub struct LineReader {
    buffer: [u8; BUFFER],
    start: usize,
    end: usize,
    line_start: usize,
    line_length: usize,
    taken: u64,
    ended: bool,
    fault: Option<LineFault>,
}

impl Model for LineReader {
    ghost Value = { Reading };

    ghost view = { λ r. record {
      rest = take (r.end - r.start) (drop r.start r.buffer);
      line = take r.line_length (drop r.line_start r.buffer);
      taken = r.taken;
      ended = r.ended;
      fault = r.fault;
    } };

    ghost invariant = { λ r. (r.start ≤ r.end) × (r.end ≤ 8192)
        × (r.line_start + r.line_length ≤ 8192) × (r.end - r.start ≤ r.taken)
        × (r.taken ≤ stream_most) × (length r.buffer ≡ 8192) };
}

impl LineReader {
    /// A reader that has taken nothing.
    pub fn new() -> Self
        ensures { result ≡ fresh_reader 0 }
    {
        LineReader::with_taken(0)
    }

    /// A reader as if it had taken so many bytes before.
    pub fn with_taken(taken: u64) -> Self
        requires { taken ≤ stream_most }
        ensures { result ≡ fresh_reader taken }
    {
        LineReader {
            buffer: [0; BUFFER],
            start: 0,
            end: 0,
            line_start: 0,
            line_length: 0,
            taken,
            ended: false,
            fault: None,
        }
    }

    /// The last whole line.
    pub fn line(&self) -> &[u8]
        ensures { result.now ≡ self.now.line }
    {
        &self.buffer[self.line_start..self.line_start + self.line_length]
    }

    // The next line, if its newline is held. None stands in the first `scanned` bytes.
    fn take_line(&mut self, scanned: usize) -> Option<usize>
        requires within { scanned ≤ length self.old.rest }
        requires plain { NoNewline (take scanned self.old.rest) }
        ensures found { IfSome result (λ n. (length self.new.line ≡ n) × NoNewline self.new.line
            × (self.old.rest ≡ self.new.line ++ 10 ∷ self.new.rest)) }
        ensures none { IfNone result (NoNewline self.old.rest × (self.new ≡ self.old)) }
        ensures taken { self.new.taken ≡ self.old.taken }
        ensures ended { self.new.ended ≡ self.old.ended }
        ensures fault { self.new.fault ≡ self.old.fault }
    {
        let at = scanned + newline_at(&self.buffer[self.start + scanned..self.end])?;
        self.line_start = self.start;
        self.line_length = at;
        self.start += at + 1;
        Some(at)
    }

    // All that is held becomes the line.
    fn take_rest(&mut self) -> usize
        ensures length { result ≡ length self.old.rest }
        ensures step { self.new ≡ record self.old { line = self.old.rest; rest = [] } }
    {
        let length = self.end - self.start;
        self.line_start = self.start;
        self.line_length = length;
        self.start = self.end;
        length
    }

    // Takes what the source gives in one call, or nothing at its end. No whole line is held before.
    fn fill<S: Source>(&mut self, source: &mut S) -> Result<usize, Failed>
        requires held { length self.old.rest ≤ 1100 }
        requires plain { NoNewline self.old.rest }
        requires room { self.old.taken < stream_most }
        ensures got { IfOk result (λ n. ReaderTakes (S.left source.old) (S.left source.new)
            self.old self.new n) }
        ensures keeps { OnErr result (Gives (S.left source.old) (S.left source.new) []
            × (self.new.rest ≡ self.old.rest) × (self.new.taken ≡ self.old.taken)
            × (self.new.ended ≡ self.old.ended)) }
        ensures ended { IfOk result (λ n. self.new.ended ≡ (n == 0)) }
        ensures fault { self.new.fault ≡ self.old.fault }
        ensures later { S.faults source.old ≤ S.faults source.new }
        ensures still { IfOk result (λ n. S.faults source.new ≡ S.faults source.old) }
        ensures cause { OnErr result (HasRisen (S.faults source.old) (S.faults source.new)) }
    {
        let held = self.end - self.start;
        self.start = make_room(&mut self.buffer, self.start, self.end);
        self.end = self.start + held;
        self.line_start = 0;
        self.line_length = 0;
        let room = (BUFFER - self.end) as u64;
        let most = room.min(MAX_TAKEN - self.taken) as usize;
        let n = source.read_some(&mut self.buffer[self.end..self.end + most])?;
        self.end += n;
        self.taken += n as u64;
        self.ended = n == 0;
        Ok(n)
    }

    // How many bytes are held.
    fn held(&self) -> usize
        ensures { result ≡ length self.now.rest }
    {
        self.end - self.start
    }

    // Whether the source gave its end.
    fn ended(&self) -> bool
        ensures { result ≡ self.now.ended }
    {
        self.ended
    }

    // How many more bytes may be taken.
    fn room(&self) -> u64
        ensures { result + self.now.taken ≡ stream_most }
    {
        MAX_TAKEN - self.taken
    }

    // The fault that was met.
    fn fault(&self) -> Option<LineFault>
        ensures value { result ≡ self.now.fault }
        ensures held { length self.now.rest ≤ self.now.taken }
        ensures limit { self.now.taken ≤ stream_most }
    {
        self.fault
    }

    // Keeps a fault, which each further call answers.
    fn fail(&mut self, fault: LineFault) -> LineFault
        ensures result { result ≡ fault }
        ensures kept { self.new ≡ record self.old { fault = Some fault } }
    {
        self.fault = Some(fault);
        fault
    }

    // The next line where no fault was met.
    fn read_line<S: Source>(&mut self, source: &mut S) -> Result<Line, LineFault>
        requires well { self.old.fault ≡ None }
        requires held { length self.old.rest ≤ self.old.taken }
        requires limit { self.old.taken ≤ stream_most }
        ensures step { ReaderStep (S.left source.old) (S.left source.new) self.old self.new result }
        ensures cause { HasCause result self.new (S.faults source.old) (S.faults source.new) }
        ensures quiet { NeedsNoCall self.old → source.new ≡ source.old }
        ensures later { S.faults source.old ≤ S.faults source.new }
        ensures still { result ≢ Err LineFault.Source
            → S.faults source.new ≡ S.faults source.old }
    {
        let mut dropped = 0;
        let mut scanned = 0;
        loop {
            if let Some(length) = self.take_line(scanned) {
                return Ok(line_of(dropped, length));
            }
            if self.ended() {
                let length = self.take_rest();
                return Ok(last_line_of(dropped, length));
            }
            if self.held() > MAX_LINE {
                dropped += self.take_rest() as u64;
            }
            if self.room() == 0 {
                return Err(self.fail(LineFault::TooLong { bytes: MAX_TAKEN }));
            }
            scanned = self.held();
            let Ok(_taken) = self.fill(source) else {
                return Err(self.fail(LineFault::Source));
            };
        }
    }

    /// The next line, the end, or a fault, which each further call answers again. `Source` comes
    /// only where a call of the source failed, and `TooLong` exactly where 2^40 bytes were taken
    /// and no whole line of them is left. The source is not called where the answer is known
    /// without it, and nothing but the reader and the source changes.
    pub fn next<S: Source>(&mut self, source: &mut S) -> Result<Line, LineFault>
        ensures step { self.old.fault ≡ None
            → ReaderStep (S.left source.old) (S.left source.new) self.old self.new result }
        ensures cause { self.old.fault ≡ None
            → HasCause result self.new (S.faults source.old) (S.faults source.new) }
        ensures later { S.faults source.old ≤ S.faults source.new }
        ensures still { result ≢ Err LineFault.Source
            → S.faults source.new ≡ S.faults source.old }
        ensures quiet { NeedsNoCall self.old → source.new ≡ source.old }
        ensures again { (f : LineFault) → self.old.fault ≡ Some f
            → (result ≡ Err f) × (self.new ≡ self.old) × (source.new ≡ source.old) }
    {
        match self.fault() {
            Some(fault) => Err(fault),
            None => self.read_line(source),
        }
    }
}

// A line of which these bytes were let go and these are held.
fn line_of(dropped: u64, length: usize) -> Line
    requires { dropped + length < 2 ^ 63 }
    ensures whole { dropped + length ≤ 1100 → result ≡ Line.Whole length }
    ensures long { 1100 < dropped + length → result ≡ Line.Long (dropped + length) }
{
    let all = dropped + length as u64;
    if all > MAX_LINE as u64 {
        Line::Long { length: all }
    } else {
        Line::Whole { length }
    }
}

// The same at the end, where no bytes are no line.
fn last_line_of(dropped: u64, length: usize) -> Line
    requires { dropped + length < 2 ^ 63 }
    ensures end { dropped + length ≡ 0 → result ≡ Line.End }
    ensures whole { 0 < dropped + length → dropped + length ≤ 1100 → result ≡ Line.Whole length }
    ensures long { 1100 < dropped + length → result ≡ Line.Long (dropped + length) }
{
    if dropped == 0 && length == 0 {
        Line::End
    } else {
        line_of(dropped, length)
    }
}
