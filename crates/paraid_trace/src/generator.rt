//! The lines of the trace that a number stands for.
ghost use Rattle.std.specs.Prelude.{◌≡◌, ◌<◌};
ghost use Rattle.paraid_trace.specs.Generated.{event_of_kind as event_of, generated_event, mixed_number as mixed_of};

use crate::hexes::repeated;
use paraid_base::{Event, Pairs};

// Odd numbers that spread the bits of a factor over 32 bits.
const NUMBER_FACTOR: u64 = 2654435761;

const LINE_FACTOR: u64 = 1597334677;

const SQUARE_FACTOR: u64 = 668265263;

/// Line `i`, from 0, of the trace that a number stands for, on an array of so many blocks. Of 256
/// lines about 140 are reads, 90 writes, 10 flushes, 14 ticks, one is `up` and one `down`. A write
/// repeats the two lowest bytes of `i`, the high byte first.
#[tactic(auto, unfolding(crate::specs::Generated::generated_event))]
pub fn generate(number: u32, i: u32, blocks: u32) -> Event
    requires some { 0 < blocks }
    ensures value { result ≡ generated_event number i blocks }
{
    let mixed = mixed(number, i);
    let block = mixed % (1 << 24) % blocks;
    event_of_kind(mixed >> 24, block, i)
}

// The sum of the products modulo 2^32. The square is reduced first: all of it would pass 2^64.
fn mixed(number: u32, i: u32) -> u32
    ensures { result ≡ mixed_of number i }
{
    let i = u64::from(i);
    let linear = (u64::from(number) * NUMBER_FACTOR + i * LINE_FACTOR) % (1 << 32);
    let square = (i * i) % (1 << 32) * SQUARE_FACTOR;
    ((linear + square) % (1 << 32)) as u32
}

fn event_of_kind(kind: u32, block: u32, i: u32) -> Event
    ensures { result ≡ event_of kind block i }
{
    match kind {
        0..=139 => Event::Read { block },
        140..=229 => Event::Write {
            pairs: Pairs::one(block, &repeated(&[(i / 256 % 256) as u8, (i % 256) as u8])),
        },
        230..=239 => Event::Flush,
        240..=253 => Event::Tick,
        254 => Event::Up,
        _ => Event::Down,
    }
}
