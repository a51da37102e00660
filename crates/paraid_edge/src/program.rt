//! What the edge hands a command to.
//!
//! That a command has ended, and that a new array may be made, are known of it by its answers
//! alone: so no other code can give a status in its place, and none can leave a look at the images
//! out. It is given away with the words. So what it has served ends as it says, and it serves once.
//!
//! The rack is given away before it is served, into a type of the program's own. The edge is over
//! every program: so of this type it knows no call but `serve`, and what comes back is no rack.
ghost use Rattle.std.specs.Prelude.{◌≡◌, ℕ, List, Some, IfErr, IfOk, IfNone, map, string_bytes};
ghost use Rattle.paraid_edge.specs.Ready.{IsAsOpenedButLogs, IsReady, IsWhole};
ghost use Rattle.paraid_imgrack.specs.Looks.{images_of};
ghost use Rattle.paraid_imgrack.specs.declared.image.Image.{Image as ImageType};
ghost use Rattle.paraid_imgrack.specs.declared.rack.ImageRack.{ImageRack as RackType};
ghost use Rattle.paraid_words.specs.Words.{AskFor};
ghost use Rattle.paraid_words.specs.declared.command.Command.{Command as CommandType};

use paraid_base::DiskNo;
use paraid_imgrack::{Claim, Closed, ImageRack};

/// The program over image files. It comes back only where there was no memory and it has done
/// nothing.
pub trait Program<F>: Sized {
    /// A rack that was given away. It can be handed to `serve`, and not be used.
    type Sealed;

    /// The rack that is sealed.
    ghost inside: { Self.Sealed → RackType F };

    /// This command was served with this rack and ended with this status.
    ghost ended: { Self → RackType F → CommandType → ℕ → Type 0 };

    /// In the slots of these images a new array may be made.
    ghost free: { Self → List ImageType → Type 0 };

    /// It was told which words there are, with this status.
    ghost told: { Self → ℕ → Type 0 };

    /// Answers words that are no command. It touches no image.
    fn tell(self, files: F, words: &Vec<String>) -> Result<u8, Self>
        requires { (c : CommandType) → AskFor c (map string_bytes words.now.items) → ⊥ }
        ensures status { IfOk result (λ status. told self status) }
        ensures none { IfErr result (λ left. left ≡ self) };

    /// The first image that a new array would write over. An array whose log can be read is told by
    /// the command itself.
    fn claimed(&self, rack: &mut ImageRack<F>) -> Option<(DiskNo, Claim)>
        requires { IsWhole rack.old }
        ensures free { IfNone result (free self.now (images_of rack.new)) }
        ensures opened { IsAsOpenedButLogs rack.new };

    /// Takes the rack as it is.
    fn seal(rack: ImageRack<F>) -> Self::Sealed
        ensures { inside result ≡ rack };

    /// Does the command that the words ask for. No call is made on the rack before it, and none
    /// after.
    fn serve(self, words: &Vec<String>, rack: Self::Sealed) -> Result<Served<F>, Self>
        requires { (c : CommandType) → AskFor c (map string_bytes words.now.items)
            → IsReady (free self) c (inside rack) }
        ensures status { IfOk result (λ end. (c : CommandType)
            → AskFor c (map string_bytes words.now.items) → ended self (inside rack) c end.status) }
        ensures none { IfErr result (λ left. left ≡ self) };
}

/// What a command that was served has left: its status, and the images.
#[derive(Drop)]
pub struct Served<F> {
    pub status: u8,
    pub rack: Closed<F>,
}

/// How the words were answered.
#[derive(Drop)]
pub struct EdgeEnd<P> {
    pub status: u8,
    /// The program, if the status is not one that it gave.
    pub left: Option<P>,
}

impl<P> EdgeEnd<P> {
    /// By the edge alone.
    pub(crate) fn unused(program: P, status: u8) -> EdgeEnd<P>
        ensures { result ≡ record { status = status; left = Some program } }
    {
        EdgeEnd {
            status,
            left: Some(program),
        }
    }
}
