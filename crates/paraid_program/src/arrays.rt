//! The arrays with gears that the program makes of a rack.
ghost use Rattle.paraid_array.specs.Arrays.{HasNothingStaged, dirty_of_array, meta_of_array, slot_of_array};

use paraid_array::{Array, mount_array};
use paraid_base::Halt;
use paraid_commands::outside::Outside;
use paraid_rack::Rack;
use paraid_recover::MountRefused;
use paraid_scrub::CheckReport;
use std::alloc::Global;

/// What mounts an array with gears, by this allocator. After a mount it takes no memory.
#[derive(Drop)]
pub struct Arrays {
    alloc: Global,
}

impl Arrays {
    pub fn new(alloc: Global) -> Arrays {
        Arrays { alloc }
    }
}

impl<R: Rack> Outside<R, Array<R>> for Arrays {
    ghost served = { λ array. record {
      meta = meta_of_array array;
      dirty = dirty_of_array array;
      slot = slot_of_array R.slot array;
    } };

    ghost nothing = { HasNothingStaged };

    fn mount(&self, rack: R) -> Result<Array<R>, MountRefused<R>> {
        match mount_array(self.alloc, rack) {
            Ok(array) => Ok(array),
            Err(refused) => Err(refused),
        }
    }

    fn check(&self, array: &mut Array<R>) -> Result<CheckReport, Halt> {
        array.check()
    }

    fn unmount(&self, array: Array<R>) -> R {
        array.close()
    }
}
