//! A configuration is read from its text.

ghost use Rattle.std.specs.Prelude.{IfOk, IfErr};
ghost use Rattle.paraid_record.specs.Range.{IsSetupInRange};
ghost use Rattle.paraid_config.specs.Config.{IsConfigurationOf, IsConfigRefusal};

use crate::{ConfigFault, setup_of};
use paraid_record::Setup;
use std::alloc::Global;

/// The most bytes of a configuration.
const LONGEST: usize = 65536;

/// Reads the setup that a text of at most 65,536 bytes says.
///
/// It is refused by the first cause in the order of `ConfigFault`. No memory is taken before the
/// length is tested; from then on want of memory may come at any point.
pub fn read_config(alloc: Global, bytes: &[u8]) -> Result<Setup, ConfigFault>
    ensures ok { IfOk result (IsConfigurationOf bytes.now) }
    ensures range { IfOk result IsSetupInRange }
    ensures err { IfErr result (IsConfigRefusal bytes.now) }
{
    if bytes.len() > LONGEST {
        return Err(ConfigFault::Long);
    }
    match toml::table_from_slice(alloc, bytes) {
        Ok(table) => setup_of(alloc, &table),
        Err(error) => {
            if error.is_memory() {
                Err(ConfigFault::NoMemory)
            } else {
                Err(ConfigFault::NotToml)
            }
        }
    }
}
