//! That a text which says a setup is refused by no cause that lies in it.
ghost use Rattle.std.specs.Prelude.{◌≢◌, ℕ, List};
ghost use Rattle.paraid_config.specs.Config.{IsConfigRefusal, IsConfigurationOf};
ghost use Rattle.paraid_config.specs.declared.fault.ConfigFault.{ConfigFault as ConfigFaultType};
ghost use Rattle.paraid_config.specs.declared.fault.ConfigFault.TheVariants.{NoMemory};
ghost use Rattle.paraid_record.specs.declared.meta.Setup.{Setup};

/// A text that says a setup is refused for nothing but want of memory.
pub fn a_configuration_is_not_refused()
    ensures { (text : List ℕ) (setup : Setup) (fault : ConfigFaultType)
        → IsConfigurationOf text setup → fault ≢ NoMemory → IsConfigRefusal text fault → ⊥ }
{}
