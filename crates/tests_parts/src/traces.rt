//! The generator of traces.

use paraid_base::{Event, Pairs};
use paraid_trace::generate;

// A letter, and the block of a read or a write with the first two bytes of what is written.
type Kind = (u8, u32, u8, u8);

// A write of one block that repeats two bytes.
fn kind_of_write(pairs: &Pairs) -> Kind {
    let bytes = &pairs.bytes[0].bytes;
    if pairs.count == 1 && bytes[510] == bytes[0] && bytes[511] == bytes[1] {
        (b'w', pairs.blocks[0], bytes[0], bytes[1])
    } else {
        (b'?', 0, 0, 0)
    }
}

fn kind(event: &Event) -> Kind {
    match event {
        Event::Read { block } => (b'r', *block, 0, 0),
        Event::Write { pairs } => kind_of_write(pairs),
        Event::Flush => (b'f', 0, 0, 0),
        Event::Tick => (b't', 0, 0, 0),
        Event::Up => (b'u', 0, 0, 0),
        Event::Down => (b'd', 0, 0, 0),
        _ => (b'?', 0, 0, 0),
    }
}

// Lines of another program that has the same definition.
// A number, a line of its trace, a count of blocks, and the event.
const GENERATED: [(u32, u32, u32, Kind); 19] = [
    (0, 0, 20, (b'r', 0, 0, 0)),
    (0, 1, 20, (b'r', 0, 0, 0)),
    (0, 2, 20, (b'r', 2, 0, 0)),
    (0, 3, 20, (b'r', 14, 0, 0)),
    (0, 4, 20, (b't', 0, 0, 0)),
    (0, 5, 20, (b'w', 4, 0, 5)),
    (7, 0, 28672, (b'r', 13271, 0, 0)),
    (7, 817, 28672, (b'r', 12587, 0, 0)),
    (7, 365, 28672, (b'f', 0, 0, 0)),
    (7, 346, 28672, (b'f', 0, 0, 0)),
    (7, 211, 28672, (b't', 0, 0, 0)),
    (7, 51, 28672, (b't', 0, 0, 0)),
    (7, 774, 28672, (b'u', 0, 0, 0)),
    (7, 159, 28672, (b'd', 0, 0, 0)),
    (7, 286, 28672, (b'w', 1929, 0x01, 0x1e)),
    (7, 104, 28672, (b'w', 543, 0x00, 0x68)),
    (3, 65537, 28672, (b'w', 7383, 0x00, 0x01)),
    (u32::MAX, u32::MAX, u32::MAX, (b'r', 6819049, 0, 0)),
    (u32::MAX, 65794, 458752, (b'w', 216373, 0x01, 0x02)),
];

fn generated(number: u32, i: u32, blocks: u32) -> Kind {
    kind(&generate(number, i, blocks.max(1)))
}

#[test]
fn a_number_makes_its_trace(rt: HostRuntime) {
    for &(number, i, blocks, want) in &GENERATED {
        let found = generated(number, i, blocks);
        assert!(rt; found == want, "{number} at {i}");
    }
}
