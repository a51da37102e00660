//! The lines of a session of volumes.
ghost use Rattle.std.specs.Prelude.{◌≡◌, ◌≢◌, ◌≤◌};
ghost use Rattle.paraid_base.specs.Told.{HasRisen};
ghost use Rattle.paraid_service.specs.LineEnds.{ServesVolumeLines};
ghost use Rattle.paraid_service.specs.declared.run.LinesEnd.TheVariants.{Sink as AtSink, Source as AtSource};

use crate::hear::hear_volumes;
use crate::shelf::{Shelved, answer_volume_line, open_shelf};
use paraid_base::Block;
use paraid_blocks::Blocks;
use paraid_io::{LineFault, LineReader, Sink, Source, write_all};
use paraid_trace::Text;

/// How the lines of a session have ended.
#[derive(Clone, Copy)]
pub enum LinesEnd {
    /// All were answered.
    Done,
    /// The source has failed.
    Source,
    /// All that may be taken was taken, and no whole line is left.
    TooLong,
    /// The sink has failed.
    Sink,
}

/// What is there after the lines, and how they have ended.
#[derive(Drop)]
pub struct LinesRun<B: Blocks> {
    pub shelved: Shelved<B>,
    pub end: LinesEnd,
}

/// Answers each line.
pub fn serve_lines<S: Source, K: Sink, B: Blocks>(
    source: &mut S,
    sink: &mut K,
    blocks: B,
) -> LinesRun<B>
    ensures lines { ServesVolumeLines B.Blocks blocks
        (S.left source.old) (S.left source.new) (K.written sink.old)
        (K.written sink.new) result.shelved.shelf result.shelved.halt result.end }
    ensures source { result.end ≡ AtSource → HasRisen (S.faults source.old) (S.faults source.new) }
    ensures sink { result.end ≡ AtSink → HasRisen (K.faults sink.old) (K.faults sink.new) }
    ensures later_source { S.faults source.old ≤ S.faults source.new }
    ensures later_sink { K.faults sink.old ≤ K.faults sink.new }
    ensures still_source { result.end ≢ AtSource → S.faults source.new ≡ S.faults source.old }
    ensures still_sink { result.end ≢ AtSink → K.faults sink.new ≡ K.faults sink.old }
{
    let mut reader = LineReader::new();
    let mut text = Text::new();
    let mut bytes = Block::zero();
    let mut shelved = open_shelf(blocks);
    'lines: loop {
        let asked = match hear_volumes(&mut reader, source, &mut bytes) {
            Ok(Some(asked)) => asked,
            Ok(None) => return run_ended(shelved, LinesEnd::Done),
            Err(LineFault::Source) => return run_ended(shelved, LinesEnd::Source),
            Err(LineFault::TooLong { .. }) => return run_ended(shelved, LinesEnd::TooLong),
        };
        shelved = answer_volume_line(shelved, &asked, &mut bytes, &mut text);
        let Ok(()) = write_all(sink, text.as_slice()) else {
            return run_ended(shelved, LinesEnd::Sink);
        };
    }
}

fn run_ended<B: Blocks>(shelved: Shelved<B>, end: LinesEnd) -> LinesRun<B>
    ensures { (result.shelved ≡ shelved) × (result.end ≡ end) }
{
    LinesRun { shelved, end }
}
