//! Sums of blocks.

ghost use Rattle.std.specs.Prelude.{◌<◌};

use paraid_base::Block;
use paraid_parity::{is_zero, xor_into};

// A block of zeros with this byte at a place.
fn with_byte(at: usize, byte: u8) -> Block
    requires { at < 512 }
{
    let mut block = Block::zero();
    block.set(at, byte);
    block
}

// What bytes `left` and `right` at one place add up to there, whether `right` and the sum are zero
// as blocks, and what is there once `right` is taken out again.
fn sums(at: usize, left: u8, right: u8) -> (u8, [bool; 2], u8)
    requires { at < 512 }
{
    let mut to = with_byte(at, left);
    let from = with_byte(at, right);
    xor_into(&mut to, &from);
    let sum = to.bytes[at];
    let zeros = [is_zero(&from), is_zero(&to)];
    xor_into(&mut to, &from);
    (sum, zeros, to.bytes[at])
}

// A place, two bytes and their sum.
const SUMS: [(usize, u8, u8, u8); 6] = [
    (0, 0x00, 0x00, 0x00),
    (0, 0xa1, 0xb2, 0x13),
    (1, 0xff, 0x0f, 0xf0),
    (255, 0x80, 0x01, 0x81),
    (511, 0x55, 0xaa, 0xff),
    (511, 0x3c, 0x3c, 0x00),
];

#[test]
fn blocks_add_byte_by_byte_and_one_byte_shows(rt: HostRuntime) {
    assert!(rt; is_zero(&Block::zero()));
    for &(at, left, right, sum) in &SUMS {
        if at < 512 {
            let want = (sum, [right == 0, sum == 0], left);
            assert!(rt; sums(at, left, right) == want, "at {at}");
        }
    }
}
