//! What a session needs of an array: the trait `Serves`.
ghost use Rattle.std.specs.Prelude.{◌≡◌, ◌≢◌, ◌<◌, ℕ, None, Option, length};
ghost use Rattle.paraid_base.specs.BlockAnswers.{answer_to_flush};
ghost use Rattle.paraid_base.specs.declared.event.Event.TheVariants.{Flush as FlushEvent, Bad as BadEvent};
ghost use Rattle.paraid_base.specs.declared.fault.Halt.{Halt as HaltType};
ghost use Rattle.paraid_image.specs.Out.{named_out};
ghost use Rattle.paraid_machine.specs.Machine.{block_count, state_status};
ghost use Rattle.paraid_rack.specs.Slots.{Slot};
ghost use Rattle.paraid_rack.specs.Told.{Extends, Ran};
ghost use Rattle.paraid_rack.specs.Trail.{Trail};
ghost use Rattle.paraid_record.specs.declared.meta.Setup.{Setup};
ghost use Rattle.paraid_trace.specs.Answered.{answer_with};
ghost use Rattle.paraid_trace.specs.Asked.{event_with};
ghost use Rattle.paraid_serve.specs.Calls.{IsAbsentOut, IsNotDouble};
ghost use Rattle.paraid_serve.specs.Causes.{HasCause, Shown, Shows, state_shown};
ghost use Rattle.paraid_serve.specs.Lost.{HaltsByWear};
ghost use Rattle.paraid_session.specs.Turn.{GoesOn, Point};

use paraid_base::{Halt, Pairs, Status};
use paraid_trace::{Answered, Asked, Beside};

/// An array that answers events, one after the other.
pub trait Serves {
    /// The record of its rack, where it is told.
    ghost told: { Self → Option Trail };

    /// The number of slots of its rack.
    ghost slots: { Self → ℕ };

    /// What it is configured to be.
    ghost setup: { Self → Setup };

    /// What is always told of the slots of its rack.
    ghost slot: { Self → ℕ → Slot };

    /// The halt that has ended its service.
    ghost halted: { Self → Option HaltType };

    /// What is seen of it, whatever its rack holds.
    ghost shown: { Self → Shown };

    /// It stands at this point of a session.
    ghost stands: { Self → Point → Type 0 };

    /// Answers what is asked for, with the pairs of a write, and makes `beside` what stands
    /// beside the answer. After a halt nothing is asked for.
    fn serve(&mut self, asked: Asked, pairs: &Pairs, beside: &mut Beside) -> Answered
        requires going { halted self.old ≡ None }
        requires event { event_with asked pairs.now ≢ BadEvent }
        ensures turn { (p : Point) → stands self.old p → Ran (told self.old) (told self.new)
            (GoesOn (slots self.old) (setup self.old) p (event_with asked pairs.now)
            (answer_with result beside.new) (stands self.new)) }
        ensures told { Extends (told self.old) (told self.new) }
        ensures slots { slots self.new ≡ slots self.old }
        ensures cause { HasCause (shown self.old) (event_with asked pairs.now)
            (answer_with result beside.new) (shown self.new) };

    /// Keeps all writes that were accepted.
    fn flush(&mut self) -> Result<u64, Halt>
        requires going { halted self.old ≡ None }
        ensures turn { (p : Point) → stands self.old p → Ran (told self.old) (told self.new)
            (GoesOn (slots self.old) (setup self.old) p FlushEvent (answer_to_flush result)
            (stands self.new)) }
        ensures told { Extends (told self.old) (told self.new) }
        ensures slots { slots self.new ≡ slots self.old }
        ensures cause { HasCause
            (shown self.old) FlushEvent (answer_to_flush result) (shown self.new) };

    /// How many writes it has accepted, while there is no halt.
    fn writes(&self) -> u64
        ensures point { halted self.now ≡ None → (p : Point) → stands self.now p
            → result ≡ length p.history }
        ensures shown { result ≡ (shown self.now).meta.writes };

    /// Its gear, after a halt the one before it.
    fn gear(&self) -> u8
        ensures point { (p : Point) → stands self.now p → result ≡ p.state.gear }
        ensures shown { result ≡ (shown self.now).gear };

    /// The number of its blocks.
    fn blocks(&self) -> u32
        ensures value { result ≡ block_count (setup self.now) }
        ensures some { 0 < result };

    /// Its state, while there is no halt.
    fn status(&self) -> Status
        ensures point { halted self.now ≡ None → (p : Point) → stands self.now p
            → result ≡ state_status (setup self.now) (length p.history) p.state }
        ensures shown { halted self.now ≡ None → result ≡ state_status (setup self.now)
            (shown self.now).meta.writes (state_shown (shown self.now)) };

    /// The number of its disks.
    fn disks(&self) -> u8
        ensures { result ≡ (setup self.now).geometry.disks };

    /// The energy that it has used since its mount.
    fn energy(&self) -> u64
        ensures point { (p : Point) → stands self.now p → result ≡ p.energy }
        ensures shown { result ≡ (shown self.now).energy };

    /// While there is no halt, at most one of its disks is absent.
    ghost serves: { (x : Self) → halted x ≡ None → IsNotDouble (setup x) (slot x) };

    /// And that is the one that its meta names out.
    ghost absent: { (x : Self) → halted x ≡ None
        → IsAbsentOut (setup x) (named_out (shown x).meta.out) (slot x) };

    /// It halts by wear only after 2^62 commits or writes, or more.
    ghost worn: { (x : Self) → HaltsByWear (halted x) };

    /// What is seen has its setup, its slots, its halt and its gear. While there is no halt its
    /// disks are powered by that gear, and each that is there and not gone is synced.
    ghost shows: { (x : Self) → Shows (shown x) (setup x) (slot x) (halted x) };

    /// A point tells the halt.
    ghost agrees: { (x : Self) (p : Point) → stands x p → p.halt ≡ halted x };
}
