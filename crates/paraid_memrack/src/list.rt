//! A record of the calls on a rack, beside it.
ghost use Rattle.std.specs.Prelude.{◌≡◌, ◌<◌, length, map, slice_get, Some, IfOk, IfSome};
ghost use Rattle.paraid_rack.specs.Trail.{Trail};
ghost use Rattle.paraid_memrack.specs.Tells.{beginning_of};

use crate::log::Start;
use crate::slot::copies_of;
use paraid_base::NoMemory;
use paraid_gather::Noted;
use paraid_rack::Call;
use std::alloc::Global;

/// A start and the calls since then, for a rack that tells none of its own.
///
/// Where there is no memory for one more call it tells nothing from then on.
#[derive(Drop)]
pub struct CallList {
    pub(crate) tells: bool,
    pub(crate) start: Vec<Start>,
    pub(crate) calls: Vec<Call>,
}

impl CallList {
    ghost use Rattle.paraid_memrack.specs.Lists.{noted_calls, noted_in};

    /// The number of calls that are noted.
    pub fn calls(&self) -> usize
        ensures value { result ≡ length (noted_calls self.now) }
        ensures told { (t : Trail) → noted_in self.now ≡ Some t → t.calls ≡ noted_calls self.now }
    {
        self.calls.len()
    }

    /// All calls, while each of them is noted and so told.
    pub fn told_calls(&self) -> Option<&[Call]>
        ensures { IfSome result (λ calls. (t : Trail) × (noted_in self.now ≡ Some t)
            × (t.calls ≡ calls.now)) }
    {
        if self.tells { Some(&self.calls) } else { None }
    }

    /// A noted call, by its number from 0.
    pub fn call(&self, m: usize) -> &Call
        requires { m < length (noted_calls self.now) }
        ensures { slice_get (noted_calls self.now) m ≡ Some result.now }
    {
        &self.calls[m]
    }
}

impl Noted for CallList {
    ghost use Rattle.paraid_memrack.specs.Lists.{noted_in};

    ghost noted = { noted_in };

    fn note(&mut self, call: Call) {
        let Ok(()) = self.calls.push(call) else {
            self.tells = false;
            return;
        };
    }
}

/// The same start again.
pub fn starts_of(alloc: Global, start: &Vec<Start>) -> Result<Vec<Start>, NoMemory>
    ensures { IfOk result (λ starts.
        map beginning_of starts.items ≡ map beginning_of start.now.items) }
{
    let Ok(mut starts) = Vec::with_capacity(alloc, start.len()) else {
        return Err(NoMemory);
    };
    for slot in start.iter() {
        starts.push_reserved(Start {
            power: slot.power,
            blocks: copies_of(alloc, &slot.blocks)?,
        });
    }
    Ok(starts)
}
