//! The XOR of blocks of 512 bytes.
//!
//! A parity block is the XOR of the other blocks of its row or stripe, so that all of them
//! together have the XOR of zeros, and a lost one is the XOR of the others. The layers above
//! make each sum of blocks by `xor_into` and ask for zeros by `is_zero`.
#![tactic(auto)]

ghost use Rattle.std.specs.Prelude.{◌≡◌, ◌↔◌, IsTrue};
ghost use Rattle.paraid_base.specs.Xor.{xor, zero_block};

use paraid_base::Block;

/// Adds a block: each byte of `to` becomes its XOR with the byte of `from` at the same place.
pub fn xor_into(to: &mut Block, from: &Block)
    ensures { to.new ≡ xor to.old from.now }
{
    for i in 0..512 {
        to.bytes[i] ^= from.bytes[i];
    }
}

/// Whether all 512 bytes are zero. It looks at each, so that many are read at once.
pub fn is_zero(block: &Block) -> bool
    ensures { IsTrue result ↔ (block.now ≡ zero_block) }
{
    let mut most: u8 = 0;
    for at in 0..512 {
        most = most.max(block.bytes[at]);
    }
    most == 0
}
