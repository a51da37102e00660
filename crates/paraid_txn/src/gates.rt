//! Gates of the log, and witnesses, which are open or closed in the same way: by their first byte.
ghost use Rattle.std.specs.Prelude.{◌≡◌};
ghost use Rattle.paraid_image.specs.Sides.{is_open};

use paraid_base::Block;

/// An open gate, or a closed one.
pub fn gate(opened: bool) -> Block
    ensures { is_open result ≡ opened }
{
    let mut block = Block::zero();
    if opened {
        block.set(0, 1);
    }
    block
}

/// Whether a gate is open.
pub fn opens(gate: &Block) -> bool
    ensures { result ≡ is_open gate.now }
{
    gate.as_slice()[0] != 0
}
