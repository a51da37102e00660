//! That the two ways in which a state is told are one.
ghost use Rattle.std.specs.Prelude.{◌≡◌, ℕ, Bool, Option, Some};
ghost use Rattle.paraid_rack.specs.Trail.{Trail};
ghost use Rattle.paraid_record.specs.declared.meta.Meta.{Meta as MetaType};
ghost use Rattle.paraid_image.specs.Sides.{LogState};
ghost use Rattle.paraid_recover.specs.Mount.{HasSettled};
ghost use Rattle.paraid_session.specs.Turn.{IsMark, Point};
ghost use Rattle.paraid_commands.specs.Telling.{state_lines};
ghost use Rattle.paraid_recover.specs.FirstPoint.{IsFirstPoint};
ghost use Rattle.paraid_commands.specs.States.{status_lines};

/// What is told of a mounted array by its meta and its table is what is told of the point at which
/// its session begins.
pub fn a_mounted_array_is_told_as_its_first_point()
    ensures { (slots side : ℕ) (said : LogState) (m : MetaType) (dirty : ℕ → ℕ → Bool)
        (old new : Option Trail) (t : Trail) (p : Point)
        (settled : HasSettled side said m dirty old new) → new ≡ Some t
        → IsFirstPoint settled.standing dirty new p → IsMark slots m.setup p
        → status_lines m dirty ≡ state_lines m.setup p }
{}
