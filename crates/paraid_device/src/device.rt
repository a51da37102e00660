//! An array in service as a block device.
ghost use Rattle.std.specs.Prelude.{◌≡◌, is_some, if◌then◌else◌, None};
ghost use Rattle.paraid_machine.specs.Machine.{block_count as count_of_blocks};

use crate::ask::{ask, ask_flush, number_in};
use paraid_base::{Block, BlockFault, BlockNo, Halt, Pairs};
use paraid_blocks::Blocks;
use paraid_serve::Serves;
use paraid_trace::{Asked, Beside};

/// An array in service, as a block device.
pub struct Device<A: Serves> {
    array: A,
    // the halt that has ended its service
    halt: Option<Halt>,
    // room for what stands beside an answer, and the pairs of what is no write
    beside: Beside,
    none: Pairs,
    ghost agrees: { halt ≡ A.halted array },
}

impl<A: Serves> Device<A> {
    ghost use Rattle.paraid_device.specs.Devices.{array_of, halt_of_device};

    /// The device over an array that serves.
    pub fn new(array: A) -> Device<A>
        requires going { A.halted array ≡ None }
        ensures array { array_of result ≡ array }
        ensures going { halt_of_device result ≡ None }
    {
        let beside = Beside::new();
        let none = Pairs::one(0, &beside.bytes);
        Device {
            array,
            halt: None,
            beside,
            none,
        }
    }

    /// The array.
    pub fn close(self) -> A
        ensures { result ≡ array_of self }
    {
        let Device {
            array,
            halt: _,
            beside: _,
            none: _,
        } = self;
        array
    }
}

impl<A: Serves> Blocks for Device<A> {
    ghost use Rattle.paraid_device.specs.Devices.{HasAnswered, StandsFor, array_of, halt_of_device};
    ghost use Rattle.paraid_device.specs.Laws.{answered_none, few_blocks};

    ghost block_count = { λ device. count_of_blocks (A.setup (array_of device)) };

    ghost halts = { λ device. if is_some (halt_of_device device) then 1 else 0 };

    ghost halted = { halt_of_device };

    ghost tells = { λ device. is_some (A.told (array_of device)) };

    ghost stands = { λ device. StandsFor (A.stands (array_of device)) };

    ghost kept = { λ first now. HasAnswered A.Serves (array_of first) (array_of now) };

    ghost begins = { λ device. answered_none A.Serves.own (array_of device) };

    ghost small = { λ device. few_blocks (A.setup (array_of device)) };

    fn blocks(&self) -> u32 {
        self.array.blocks()
    }

    fn read(&mut self, block: BlockNo, into: &mut Block) -> Result<(), BlockFault> {
        let count = self.array.blocks();
        let asked = Asked::Read { block };
        match ask(
            &mut self.array,
            &mut self.halt,
            asked,
            &self.none,
            &mut self.beside,
        ) {
            Err(halt) => Err(BlockFault::Halt(halt)),
            Ok(_) if block >= count => Err(BlockFault::NoBlock { block }),
            Ok(_) => {
                into.copy_from(&self.beside.bytes);
                Ok(())
            }
        }
    }

    fn write_many(&mut self, pairs: &Pairs) -> Result<u64, BlockFault> {
        let missing = pairs.missing(self.array.blocks());
        match ask(
            &mut self.array,
            &mut self.halt,
            Asked::Write,
            pairs,
            &mut self.beside,
        ) {
            Err(halt) => Err(BlockFault::Halt(halt)),
            Ok(answered) => match missing {
                Some(block) => Err(BlockFault::NoBlock { block }),
                None => Ok(number_in(&answered)),
            },
        }
    }

    fn flush(&mut self) -> Result<u64, Halt> {
        ask_flush(&mut self.array, &mut self.halt)
    }
}
