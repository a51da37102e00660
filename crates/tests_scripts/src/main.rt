//! Plays a script of runs of the whole program over disks in memory, and tells what each line of it
//! shows.
//!
//! Each line is echoed. What it tells follows, each line of that indented.
#![tactic(auto)]

mod changes;
mod lines;
mod moments;
mod runs;
mod stage;
mod tallies;

use stage::Stage;
use std::io;
use std::io::{BufRead, BufReader};

// Prints what a line tells, or that it is none or could not be played.
fn print_told(rt: &impl Print, told: Option<&str>) -> io::Result<()> {
    let Some(text) = told else {
        return println!(rt; "    ?");
    };
    for line in text.lines() {
        println!(rt; "    {line}")?;
    }
    Ok(())
}

fn answer(rt: &(impl Print + AllocGlobal), stage: &mut Stage, line: &str) -> io::Result<()> {
    println!(rt; "{line}")?;
    match stage.play(rt.alloc(), line) {
        Some(told) => print_told(rt, Some(told.as_str())),
        None => print_told(rt, None),
    }
}

fn main(rt: HostRuntime) -> io::Result<()> {
    let Some(mut stage) = Stage::new(rt.alloc()) else {
        return println!(rt; "no memory");
    };
    let reader = BufReader::new(rt.alloc(), rt.reader())?;
    for line in reader.lines(rt.alloc()) {
        answer(&rt, &mut stage, line?.as_str())?;
    }
    Ok(())
}
