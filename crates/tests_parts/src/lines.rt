//! Lines of inputs of many lengths, and what sources and sinks do after a fault.

ghost use Rattle.std.specs.Prelude.{None, length};

use Want::{Cut, End, Fault, Long};
use paraid_base::Failed;
use paraid_io::{
    Line, LineFault, LineReader, MAX_TAKEN, MemSink, MemSource, Source, SureSource, write_all,
};
use std::alloc::Global;

// Gives one byte a call, and tells nothing.
#[derive(Drop)]
struct Dribble {
    bytes: Vec<u8>,
    at: usize,
}

impl Source for Dribble {
    ghost faults = { λ s. 0 };

    ghost left = { λ s. None };

    fn read_some(&mut self, into: &mut [u8]) -> Result<usize, Failed> {
        let Some(byte) = self.bytes.get(self.at) else {
            return Ok(0);
        };
        into[0] = *byte;
        self.at += 1;
        Ok(1)
    }
}

// What a reader answers to one call.
#[derive(Clone, Copy)]
enum Want {
    // The line of the input from one place to before another.
    Cut(usize, usize),
    // So many bytes are passed over.
    Long(u64),
    End,
    Fault(LineFault),
}

fn is_part(line: &[u8], input: &[u8], from: usize, to: usize) -> bool {
    input.get(from..to) == Some(line)
}

// What the reader answers to the call.
fn answer_of(want: Want) -> Result<Line, LineFault> {
    match want {
        Cut(from, to) => Ok(Line::Whole {
            length: to.saturating_sub(from),
        }),
        Long(length) => Ok(Line::Long { length }),
        End => Ok(Line::End),
        Fault(fault) => Err(fault),
    }
}

// Whether the line that the reader then holds is that of the input, where the answer is a line.
fn is_line_held(line: &[u8], input: &[u8], want: Want) -> bool {
    match want {
        Cut(from, to) => is_part(line, input, from, to),
        _ => true,
    }
}

fn is_answer<S: Source>(reader: &mut LineReader, source: &mut S, input: &[u8], want: Want) -> bool {
    reader.next(source) == answer_of(want) && is_line_held(reader.line(), input, want)
}

// Whether a reader answers so to one call after another.
fn are_answers<S: Source>(
    reader: &mut LineReader,
    source: &mut S,
    input: &[u8],
    wants: &[Want],
) -> bool {
    for want in wants {
        if !is_answer(reader, source, input, *want) {
            return false;
        }
    }
    true
}

// Adds one byte, or so many times `x` in the place of a star.
fn add(bytes: &mut Vec<u8>, byte: u8, count: usize) -> bool {
    if byte != b'*' {
        return bytes.push(byte).is_ok();
    }
    let length = bytes.len().saturating_add(count);
    bytes.resize(length, b'x').is_ok()
}

fn fill(bytes: &mut Vec<u8>, text: &[u8], count: usize) -> bool {
    for byte in text {
        if !add(bytes, *byte, count) {
            return false;
        }
    }
    true
}

fn copied(alloc: Global, bytes: &[u8]) -> Option<Vec<u8>> {
    Vec::from_slice(alloc, bytes).ok()
}

// The text with so many times `x` in the place of each star.
fn bytes_of(alloc: Global, text: &[u8], count: usize) -> Option<Vec<u8>> {
    let mut bytes = Vec::new(alloc);
    if fill(&mut bytes, text, count) {
        Some(bytes)
    } else {
        None
    }
}

// Inputs, how many times `x` a star stands for, and what a reader answers.
const INPUTS: [(&[u8], usize, &[Want]); 10] = [
    (b"", 0, &[End, End]),
    (b"\n", 0, &[Cut(0, 0), End]),
    (b"a\n\nbc", 0, &[Cut(0, 1), Cut(2, 2), Cut(3, 5), End]),
    (b"\0\r\n\xc3\xa9\n", 0, &[Cut(0, 2), Cut(3, 5), End]),
    (b"*\nz\n", 1100, &[Cut(0, 1100), Cut(1101, 1102), End]),
    (b"*", 1100, &[Cut(0, 1100), End]),
    (b"*\nz\n", 1101, &[Long(1101), Cut(1102, 1103), End]),
    (b"*", 1101, &[Long(1101), End]),
    (
        b"q\n*\n\nz",
        2000,
        &[Cut(0, 1), Long(2000), Cut(2003, 2003), Cut(2004, 2005), End],
    ),
    (
        b"q\n*\nz",
        20000,
        &[Cut(0, 1), Long(20000), Cut(20003, 20004), End],
    ),
];

// Whether a new reader answers so.
fn is_read<S: Source>(source: &mut S, input: &[u8], wants: &[Want]) -> bool {
    are_answers(&mut LineReader::new(), source, input, wants)
}

fn is_read_failing(alloc: Global, input: &[u8], wants: &[Want]) -> Option<bool> {
    let mut source = MemSource::new(copied(alloc, input)?, Vec::new(alloc));
    Some(is_read(&mut source, input, wants))
}

fn is_read_surely(alloc: Global, input: &[u8], wants: &[Want]) -> Option<bool> {
    let mut source = SureSource::new(copied(alloc, input)?);
    Some(is_read(&mut source, input, wants))
}

fn is_read_slowly(alloc: Global, input: &[u8], wants: &[Want]) -> Option<bool> {
    let bytes = copied(alloc, input)?;
    Some(is_read(&mut Dribble { bytes, at: 0 }, input, wants))
}

// Whether a reader answers so, by a source that can fail, by one that cannot, and byte by byte.
fn is_cut(alloc: Global, text: &[u8], count: usize, wants: &[Want]) -> Option<[bool; 3]> {
    let input = bytes_of(alloc, text, count)?;
    Some([
        is_read_failing(alloc, &input, wants)?,
        is_read_surely(alloc, &input, wants)?,
        is_read_slowly(alloc, &input, wants)?,
    ])
}

#[test]
fn lines_are_the_input_cut_at_its_newlines(rt: HostRuntime) {
    for (row, &(text, count, wants)) in INPUTS.iter().enumerate() {
        let found = is_cut(rt.alloc(), text, count, wants);
        assert!(rt; found == Some([true; 3]), "row {row}");
    }
}

// A line of one byte, and then twice this fault.
fn told_twice(fault: LineFault) -> [Want; 3] {
    [Cut(0, 1), Fault(fault), Fault(fault)]
}

// The numbers of calls.
fn calls(alloc: Global, numbers: &[u32]) -> Option<Vec<u32>> {
    Vec::from_slice(alloc, numbers).ok()
}

// Whether a reader that may take four bytes more takes one line, and then tells that it is full.
fn is_told_full(alloc: Global) -> Option<bool> {
    let input = b"f\nr 0\n";
    let mut source = SureSource::new(copied(alloc, input)?);
    let mut reader = LineReader::with_taken(MAX_TAKEN - 4);
    let wants = told_twice(LineFault::TooLong {
        bytes: 1099511627776,
    });
    Some(are_answers(&mut reader, &mut source, input, &wants))
}

// Whether a reader tells each time that the second call of its source failed.
fn is_told_failed(alloc: Global) -> Option<bool> {
    let input = b"a\nb";
    let bytes = copied(alloc, input)?;
    let mut source = MemSource::new(bytes, calls(alloc, &[1])?);
    let wants = told_twice(LineFault::Source);
    Some(is_read(&mut source, input, &wants))
}

#[test]
fn a_fault_is_answered_again(rt: HostRuntime) {
    assert!(rt; is_told_full(rt.alloc()) == Some(true));
    assert!(rt; is_told_failed(rt.alloc()) == Some(true));
}

// A sink of five bytes whose first and third calls fail.
fn failing_sink(alloc: Global) -> Option<MemSink> {
    MemSink::new(alloc, 5, calls(alloc, &[0, 2])?).ok()
}

// What is written, whether that is done, and what the sink then holds.
const WRITTEN: [(&str, bool, &str); 6] = [
    ("abc", false, ""),
    ("", true, ""),
    ("abc", true, "abc"),
    ("defg", false, "abc"),
    ("defg", false, "abcde"),
    ("", true, "abcde"),
];

// Whether that is done or not, and what the sink then holds is this.
fn is_written(sink: &mut MemSink, row: &(&str, bool, &str)) -> bool {
    write_all(sink, row.0.as_bytes()).is_ok() == row.1 && sink.bytes() == row.2.as_bytes()
}

// How many rows are so before one that is not.
fn written(alloc: Global) -> Option<usize> {
    let mut sink = failing_sink(alloc)?;
    for at in 0..6 {
        if !is_written(&mut sink, &WRITTEN[at]) {
            return Some(at);
        }
    }
    Some(6)
}

#[test]
fn a_sink_fails_as_planned_and_where_it_is_full(rt: HostRuntime) {
    assert!(rt; written(rt.alloc()) == Some(6));
}
