//! A source and a sink over any reader and writer, such as the system's streams. They pass on what
//! those give and take, and count their own faults. Of content they tell nothing themselves.
ghost use Rattle.std.specs.Prelude.{◌≡◌, ◌+◌, ◌<◌, ◌≤◌, length, min, IfOk, OnErr, None};
ghost use Rattle.std.specs.Io.{ReadsAtMost, WritesAtMost};
ghost use Rattle.std.specs.Io.KnownBytes.{ReadConsumes, WriteAppends};
ghost use Rattle.paraid_base.specs.Told.{HasRisen, counter_most};
ghost use Rattle.paraid_io.specs.Streams.{reader_of, read_faults, writer_of, write_faults};

use crate::{Sink, Source};
use paraid_base::Failed;
use std::io::{self, ErrorKind, Read, Write};

/// How often a call is made that a signal interrupts each time.
const TRIES: u32 = 1_000;

/// A source over a reader. It tells nothing of content, but gives exactly what the reader gave. A
/// failed read fails the call, which is counted. One that a signal interrupts is made again.
#[derive(Drop)]
pub struct StdSource<R> {
    reader: R,
    faults: u64,
}

impl<R: Read + Drop> StdSource<R> {
    /// A source over this reader, whose count stands at 0.
    pub fn new(reader: R) -> Self
        ensures reader { reader_of result ≡ reader }
        ensures faults { ⟦<StdSource<R> as Source>⟧.faults result ≡ 0 }
    {
        StdSource { reader, faults: 0 }
    }
}

impl<R: Read + Drop> Source for StdSource<R> {
    ghost faults = { read_faults };

    ghost left = { λ s. None };

    fn read_some(&mut self, into: &mut [u8]) -> Result<usize, Failed>
        requires { 0 < length into.old }
        ensures within { IfOk result (λ n. n ≤ length into.old) }
        ensures later { read_faults self.old ≤ read_faults self.new }
        ensures still { IfOk result (λ n. read_faults self.new ≡ read_faults self.old) }
        ensures cause { OnErr result (HasRisen (read_faults self.old) (read_faults self.new)) }

        // What the reader gave is passed on, its end too, and nothing is lost or put in between.
        ensures passes { ReadConsumes (R.remaining (reader_of self.old))
            (R.remaining (reader_of self.new)) result into.new }
        ensures once { OnErr result (read_faults self.new
            ≡ min (read_faults self.old + 1) counter_most) }
    {
        if let Ok(n) = read_once(&mut self.reader, into) {
            return Ok(n);
        }
        self.faults = self.faults.saturating_add(1);
        Err(Failed)
    }
}

/// Reads once, by as many tries as signals ask for.
#[tactic(auto, using(crate::proofs::StreamLemmas::keeps_same, crate::proofs::StreamLemmas::keeps_then, crate::proofs::StreamLemmas::read_then))]
fn read_once<R: Read>(reader: &mut R, into: &mut [u8]) -> io::Result<usize>
    ensures bound { ReadsAtMost result into.new }
    ensures passes { ReadConsumes (R.remaining reader.old) (R.remaining reader.new)
        result into.new }
{
    for _ in 1..TRIES {
        match reader.read(into) {
            Err(error) if error.kind() == ErrorKind::Interrupted => {}
            answer => return answer,
        }
    }
    reader.read(into)
}

/// A sink over a writer. It tells nothing of content, but says exactly how much the writer took. A
/// failed write fails the call, which is counted, and so does one that takes nothing. One that a
/// signal interrupts is made again.
#[derive(Drop)]
pub struct StdSink<W> {
    writer: W,
    faults: u64,
}

impl<W: Write + Drop> StdSink<W> {
    /// A sink over this writer, whose count stands at 0.
    pub fn new(writer: W) -> Self
        ensures writer { writer_of result ≡ writer }
        ensures faults { ⟦<StdSink<W> as Sink>⟧.faults result ≡ 0 }
    {
        StdSink { writer, faults: 0 }
    }
}

impl<W: Write + Drop> Sink for StdSink<W> {
    ghost faults = { write_faults };

    ghost written = { λ s. None };

    #[tactic(auto, using(crate::proofs::StreamLemmas::none_written))]
    fn write_some(&mut self, bytes: &[u8]) -> Result<usize, Failed>
        requires { 0 < length bytes.now }
        ensures some { IfOk result (λ n. 0 < n) }
        ensures within { IfOk result (λ n. n ≤ length bytes.now) }
        ensures later { write_faults self.old ≤ write_faults self.new }
        ensures still { IfOk result (λ n. write_faults self.new ≡ write_faults self.old) }
        ensures cause { OnErr result (HasRisen (write_faults self.old) (write_faults self.new)) }

        // The writer took exactly the bytes that are answered, and none at a failure.
        ensures passes { WriteAppends (W.contents (writer_of self.old))
            (W.contents (writer_of self.new)) result bytes.now }
        ensures once { OnErr result (write_faults self.new
            ≡ min (write_faults self.old + 1) counter_most) }
    {
        if let Ok(n) = write_once(&mut self.writer, bytes) {
            if n > 0 {
                return Ok(n);
            }
        }
        self.faults = self.faults.saturating_add(1);
        Err(Failed)
    }
}

/// Writes once, by as many tries as signals ask for.
#[tactic(auto, using(crate::proofs::StreamLemmas::keeps_same, crate::proofs::StreamLemmas::keeps_then, crate::proofs::StreamLemmas::write_then))]
fn write_once<W: Write>(writer: &mut W, bytes: &[u8]) -> io::Result<usize>
    ensures bound { WritesAtMost result bytes.now }
    ensures passes { WriteAppends (W.contents writer.old) (W.contents writer.new)
        result bytes.now }
{
    for _ in 1..TRIES {
        match writer.write(bytes) {
            Err(error) if error.kind() == ErrorKind::Interrupted => {}
            answer => return answer,
        }
    }
    writer.write(bytes)
}
