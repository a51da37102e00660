//! What the plan of a write promises, over all disks, gears, phases and rebuilds.
ghost use Rattle.paraid_plan.specs.StoredCells.{KeptIsStored, KeptPlacesTell, StoredIsKept};
ghost use Rattle.paraid_plan.specs.LossMark.{LostKeeps};
ghost use Rattle.paraid_plan.specs.Units.{CleanKeeps};

/// A cell that goes back to its hard place leaves what is held.
pub fn a_cleaned_cell_keeps_the_disks_well()
    ensures { CleanKeeps }
{}

/// A disk that is lost, or failed by command, leaves what is held.
pub fn a_lost_disk_is_marked_out()
    ensures { LostKeeps }
{}

/// Disks that are kept well store the values of their cells.
pub fn what_is_kept_well_is_stored()
    ensures { KeptIsStored }
{}

/// Disks that store cells whose rows sum to zero are kept well, and hold these values.
pub fn what_is_stored_is_kept_well()
    ensures { StoredIsKept }
{}

/// Blocks that agree where the disks are kept are kept well alike.
pub fn kept_places_alone_tell()
    ensures { KeptPlacesTell }
{}
