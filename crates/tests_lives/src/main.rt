//! Plays a trace with the whole program on a new array on disks in memory, and prints what it
//! tells.
//!
//! The text that is printed is proved to be what a session of an array answers: `IsLife`. One more
//! line tells of two writes that are gathered, and is printed only where `TellsGathered` holds.
#![tactic(auto)]

mod gathering;
mod life;

use gathering::gather_writes;
use life::live;
use paraid_base::{Block, DiskNo};
use paraid_memrack::Planned;
use std::io;
use std::io::Read;

// The disk that is lost, and the number of its call that fails, from the format on: it is the first
// of a write.
const WEAK: DiskNo = 2;

const LOST_AT: u32 = 6;

// How many calls the disk saw of the four that were made above it.
fn print_gathered(rt: &(impl Print + AllocGlobal)) -> io::Result<()> {
    let first = Block::from_array([11; 512]);
    let second = Block::from_array([22; 512]);
    match gather_writes(rt.alloc(), &first, &second) {
        Some(rack) => println!(rt; "gathered 4 {}", rack.calls()),
        None => println!(rt; "no memory"),
    }
}

fn main(rt: HostRuntime) -> io::Result<()> {
    let lines = io::read_to_string(rt.alloc(), rt.reader())?;
    let plan = vec![in rt.alloc();
        Planned::OnDisk {
            disk: WEAK,
            nth: LOST_AT
        },
    ]?;
    match live(rt.alloc(), lines.as_bytes(), plan, WEAK) {
        Some(text) => print!(rt; "{}", str::from_utf8(&text).unwrap_or(""))?,
        None => println!(rt; "no life")?,
    }
    print_gathered(&rt)
}
