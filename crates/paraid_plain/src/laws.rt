//! That what the calls of this crate speak of is what the definitions of an image speak of. The
//! law is the contract of a function that does nothing.
ghost use Rattle.std.specs.Prelude.{◌≡◌};
ghost use Rattle.paraid_image.specs.Content.{view_of};
ghost use Rattle.paraid_plain.specs.declared.image.Image.{Image as ImageType};
ghost use Rattle.paraid_plain.specs.declared.statement.Statement.{Statement as StatementType};
ghost use Rattle.paraid_plain.specs.Images.{disks_in};
ghost use Rattle.paraid_plain.specs.Statements.{said_of};
ghost use Rattle.paraid_plain.specs.Views.{view_at};

/// The out disk, the dirty bits and the blocks are those of the image that what a log disk says
/// stands for.
pub fn a_view_is_what_is_stood_for()
    ensures { (image : ImageType) (s : StatementType)
        → view_at image s ≡ view_of (disks_in image) (said_of image s) }
{}
