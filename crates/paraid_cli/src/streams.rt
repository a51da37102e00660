//! The program over a source, a sink and image files.
ghost use Rattle.std.specs.Prelude.{◌≡◌, IfErr, IfOk, map, string_bytes};
ghost use Rattle.paraid_cli.specs.CommandEnd.{EndsOverImages, EndsWithUsage};
ghost use Rattle.paraid_serve.specs.Streams.{sink_use, source_use};
ghost use Rattle.paraid_words.specs.Words.{AskFor};
ghost use Rattle.paraid_words.specs.declared.command.Command.{Command as CommandType};

use crate::logs::hold_array;
use crate::served::{GatheredEnd, Sealed, serve_gathered};
use paraid_base::DiskNo;
use paraid_edge::{Program, Served};
use paraid_gather::Unnoted;
use paraid_imgrack::{Claim, ImageRack};
use paraid_io::{Sink, Source};
use std::alloc::Global;
use std::fs::{File, Files};

/// The program with the streams that it reads and writes.
#[derive(Drop)]
pub(crate) struct Paraid<S, K> {
    pub(crate) alloc: Global,
    pub(crate) source: Sealed<S>,
    pub(crate) sink: Sealed<K>,
}

impl<F: Files<File = File> + Drop, S: Source + Drop, K: Sink + Drop> Program<F> for Paraid<S, K> {
    ghost use Rattle.std.specs.Prelude.{length};

    type Sealed = Sealed<ImageRack<F>>;

    ghost inside = { λ rack. rack.inside };

    ghost ended = { λ program rack c status. EndsOverImages
        (source_use S.left S.faults program.source.inside)
        (sink_use K.written K.faults program.sink.inside) program.source.inside rack c status };

    // (what the files hold is told by no clause)
    ghost free = { λ program images. length images ≡ 8 };

    ghost told = { λ program status. EndsWithUsage K.written program.sink.inside status };

    fn tell(self, files: F, words: &Vec<String>) -> Result<u8, Self>
        requires { (c : CommandType) → AskFor c (map string_bytes words.now.items) → ⊥ }
        ensures status { IfOk result (λ status. EndsWithUsage K.written self.sink.inside status) }
        ensures none { IfErr result (λ left. left ≡ self) }
    {
        let Paraid {
            alloc,
            source,
            sink,
        } = self;
        let Ok(rack) = ImageRack::load(files, alloc, 0) else {
            return Err(Paraid {
                alloc,
                source,
                sink,
            });
        };
        match serve_gathered(alloc, words, source, sink, Sealed::new(rack), Unnoted) {
            Ok(
                GatheredEnd {
                    status,
                    source: _source,
                    sink: _sink,
                    rack: _rack,
                    log: Unnoted,
                },
            ) => Ok(status),
            Err((source, sink)) => Err(Paraid {
                alloc,
                source,
                sink,
            }),
        }
    }

    fn claimed(&self, rack: &mut ImageRack<F>) -> Option<(DiskNo, Claim)> {
        let (disk, claim) = rack.claim()?;
        if hold_array(rack) {
            return None;
        }
        Some((disk, claim))
    }

    fn seal(rack: ImageRack<F>) -> Sealed<ImageRack<F>>
        ensures { result.inside ≡ rack }
    {
        Sealed::new(rack)
    }

    fn serve(self, words: &Vec<String>, rack: Sealed<ImageRack<F>>) -> Result<Served<F>, Self>
        ensures status { IfOk result (λ end. (c : CommandType)
            → AskFor c (map string_bytes words.now.items)
            → EndsOverImages (source_use S.left S.faults self.source.inside) (sink_use
            K.written K.faults self.sink.inside) self.source.inside rack.inside c end.status) }
        ensures none { IfErr result (λ left. left ≡ self) }
    {
        let Paraid {
            alloc,
            source,
            sink,
        } = self;
        match serve_gathered(alloc, words, source, sink, rack, Unnoted) {
            Ok(
                GatheredEnd {
                    status,
                    source: _source,
                    sink: _sink,
                    rack,
                    log: Unnoted,
                },
            ) => Ok(Served {
                status,
                rack: rack.close(),
            }),
            Err((source, sink)) => Err(Paraid {
                alloc,
                source,
                sink,
            }),
        }
    }
}
