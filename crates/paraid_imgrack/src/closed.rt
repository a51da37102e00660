//! A rack that serves no more. Nothing can be read or written, attached, parked or spun up.

ghost use Rattle.std.specs.Prelude.{◌≡◌, IsSome};

use crate::rack::ImageRack;
use std::fs::{File, Files};

/// The images after a command. Their labels can be brought up to date, and what was found of them
/// be told.
#[derive(Drop)]
pub struct Closed<F> {
    rack: ImageRack<F>,
}

impl<F: Files<File = File> + Drop> Closed<F> {
    /// A rack on which no call is made from now on.
    pub fn new(rack: ImageRack<F>) -> Closed<F> {
        Closed { rack }
    }

    /// Gives the images that were attached since the load the labels of a new array, unless they
    /// are known to be of one.
    pub fn label_array(&mut self)
        ensures kept { IsSome self.old.rack.identity → self.new ≡ self.old }
    {
        self.rack.label_array();
    }

    /// What was spun up or attached since the last sync is made known to the others.
    pub fn end_load(&mut self) {
        self.rack.end_load();
    }

    /// The images, to be told of alone.
    pub fn images(&self) -> &ImageRack<F> {
        &self.rack
    }
}
