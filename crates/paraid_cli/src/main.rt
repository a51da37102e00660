//! Hands the program the standard streams and the image files of the current folder.
#![tactic(auto)]

mod logs;
mod served;
mod streams;

use crate::served::Sealed;
use crate::streams::Paraid;
use paraid_edge::answer_words;
use paraid_io::{StdSink, StdSource};
use paraid_serve::status;
use std::process::ExitCode;
use std::{env, io};

fn main(rt: HostRuntime) -> ExitCode {
    let mut words = Vec::new(rt.alloc());
    match env::args(&rt) {
        Ok(args) => {
            for word in args.skip(1) {
                if let Err(_) = words.push(word) {
                    return ExitCode::from(status::NO_MEMORY);
                }
            }
        }
        // Words that are no text are no command, just as none at all.
        Err(error) if error.kind() == io::ErrorKind::InvalidData => {}
        Err(_) => return ExitCode::from(status::NO_MEMORY),
    }
    let program = Paraid {
        alloc: rt.alloc(),
        source: Sealed::new(StdSource::new(rt.reader())),
        sink: Sealed::new(StdSink::new(io::writer(&rt))),
    };
    ExitCode::from(answer_words(&rt, program, &words).status)
}
