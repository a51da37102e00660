//! Three windows that stand for the list of all samples, and the decision on that list.

ghost use Rattle.std.specs.Prelude.{◌≡◌, ◌^◌, ◌<◌, ◌≤◌, List, ℕ, [], ◌∷◌, ◌++◌, slice_index, IfOk};
ghost use Rattle.paraid_base.specs.Regions.{IsGear};
ghost use Rattle.paraid_gear.specs.Window.{is_full, is_busy, is_low_and_even};
ghost use Rattle.paraid_gear.specs.ThreeWindows.{HoldLastSamples, lengths_of, sample_of};
ghost use Rattle.paraid_base.specs.Gears.{next_higher, next_lower};
ghost use Rattle.paraid_gear.specs.Decision.{decision, in_every_window, gear_up_for, gear_down_for};

use crate::Decision;
use crate::window::Window;
use paraid_base::NoMemory;
use paraid_record::Setup;
use std::alloc::Global;

/// The greatest sample. A greater count is cut to it.
pub const GREATEST_SAMPLE: u32 = 1048576;

/// Up to three windows on the samples, each of 1 to 1,024 samples. An unused window has length 0.
#[derive(Drop)]
pub struct Windows {
    first: Window,
    second: Window,
    third: Window,
}

impl Windows {
    /// Three windows of length 0. All memory that windows ever need is taken here.
    pub fn new(alloc: Global) -> Result<Windows, NoMemory>
        ensures lengths { IfOk result (λ windows. lengths_of windows ≡ 0 ∷ 0 ∷ 0 ∷ []) }
        ensures none { IfOk result (λ windows. HoldLastSamples windows []) }
    {
        let first = Window::new(alloc)?;
        let second = Window::new(alloc)?;
        let third = Window::new(alloc)?;
        Ok(Windows {
            first,
            second,
            third,
        })
    }

    /// Sets the lengths, each 0 to 1,024, and drops all samples.
    pub fn start(&mut self, lengths: [u16; 3])
        requires first { slice_index lengths 0 ≤ 1024 }
        requires second { slice_index lengths 1 ≤ 1024 }
        requires third { slice_index lengths 2 ≤ 1024 }
        ensures lengths { lengths_of self.new ≡ lengths }
        ensures none { HoldLastSamples self.new [] }
    {
        self.first.start(lengths[0]);
        self.second.start(lengths[1]);
        self.third.start(lengths[2]);
    }

    /// Takes in the count of a tick, cut at 1,048,576.
    pub fn push(&mut self, count: u32)
        ensures lengths { lengths_of self.new ≡ lengths_of self.old }
        ensures more { (samples : List ℕ) → HoldLastSamples self.old samples
            → HoldLastSamples self.new (samples ++ sample_of count ∷ []) }
    {
        let sample = count.min(GREATEST_SAMPLE);
        self.first.push(sample);
        self.second.push(sample);
        self.third.push(sample);
    }

    /// What the samples since the start ask for in this gear, one of the setup's.
    pub fn decide(&self, setup: &Setup, gear: u8) -> Decision
        requires lengths { lengths_of self.now ≡ setup.now.windows }
        requires gear { IsGear setup.now.geometry gear }
        ensures { (samples : List ℕ) → HoldLastSamples self.now samples
            → result ≡ decision setup.now gear samples }
    {
        if !self.are_full() {
            return Decision::Stay;
        }
        if let Some(to) = self.gear_up(setup, gear) {
            return Decision::Up { to };
        }
        if let Some(to) = self.gear_down(setup, gear) {
            return Decision::Down { to };
        }
        Decision::Stay
    }

    /// Whether each window holds as many samples as it is long.
    fn are_full(&self) -> bool
        ensures { (samples : List ℕ) → HoldLastSamples self.now samples
            → result ≡ in_every_window is_full (lengths_of self.now) samples }
    {
        self.first.is_full() && self.second.is_full() && self.third.is_full()
    }

    /// Whether in each window the mean load is at least `load` hundredths.
    fn are_busy(&self, load: u128) -> bool
        requires { load < 2 ^ 48 }
        ensures { (samples : List ℕ) → HoldLastSamples self.now samples
            → result ≡ in_every_window (is_busy load) (lengths_of self.now) samples }
    {
        self.first.is_busy(load) && self.second.is_busy(load) && self.third.is_busy(load)
    }

    /// Whether in each window the mean load and its deviation together are at most `load`
    /// hundredths.
    fn are_quiet(&self, load: u128) -> bool
        requires { load < 2 ^ 48 }
        ensures { (samples : List ℕ) → HoldLastSamples self.now samples
            → result ≡ in_every_window (is_low_and_even load) (lengths_of self.now) samples }
    {
        self.first.is_quiet(load) && self.second.is_quiet(load) && self.third.is_quiet(load)
    }

    /// The gear to shift up to, if the load on this gear asks for it.
    fn gear_up(&self, setup: &Setup, gear: u8) -> Option<u8>
        requires lengths { lengths_of self.now ≡ setup.now.windows }
        requires gear { IsGear setup.now.geometry gear }
        ensures { (samples : List ℕ) → HoldLastSamples self.now samples
            → result ≡ gear_up_for setup.now gear samples (next_higher setup.now.geometry gear) }
    {
        let to = setup.geometry.higher(gear)?;
        let load = setup.up as u128 * setup.service as u128 * gear as u128;
        if self.are_busy(load) { Some(to) } else { None }
    }

    /// The gear to shift down to, if the load on that gear would allow it.
    fn gear_down(&self, setup: &Setup, gear: u8) -> Option<u8>
        requires lengths { lengths_of self.now ≡ setup.now.windows }
        requires gear { IsGear setup.now.geometry gear }
        ensures { (samples : List ℕ) → HoldLastSamples self.now samples
            → result ≡ gear_down_for setup.now samples (next_lower setup.now.geometry gear) }
    {
        let to = setup.geometry.lower(gear)?;
        let load = setup.down as u128 * setup.service as u128 * to as u128;
        if self.are_quiet(load) { Some(to) } else { None }
    }
}
