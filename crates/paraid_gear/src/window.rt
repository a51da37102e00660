//! One window: the last samples, as many as it is long.

ghost use Rattle.std.specs.Prelude.{◌≡◌, ◌-◌, ◌^◌, ◌<◌, ◌≤◌, [], ◌∷◌, ◌++◌, length, sum, IfOk};
ghost use Rattle.circular_buffer.specs.Buffer.{keep_last};
ghost use Rattle.paraid_gear.specs.Window.{sample_window, sum_squares, is_full as is_full_at, is_busy as is_busy_at, is_low_and_even as is_quiet_at, sample_most};

use circular_buffer::HeapCircularBuffer;
use paraid_base::NoMemory;
use std::alloc::Global;
use std::marker::Model;

/// The greatest length of a window, in samples.
const LONGEST: usize = 1024;

/// The last samples. It holds no more than its length, and its ring has room for the longest. Their
/// sum and that of their squares are kept beside them.
#[derive(Drop)]
pub(crate) struct Window {
    ring: HeapCircularBuffer<u32>,
    span: u16,
    sum: u64,
    squares: u64,
}

impl Model for Window {
    ghost use Rattle.std.specs.Prelude.{◌≡◌, ◌≤◌, length};
    ghost use Rattle.paraid_gear.specs.Window.{AreSums, SampleWindow};

    ghost Value = { SampleWindow };

    ghost view = { λ w. record { span = w.span; samples = w.ring.items } };

    ghost invariant = { λ w. (w.ring.capacity ≡ 1024)
        × (w.span ≤ 1024) × (length w.ring.items ≤ w.span) × AreSums w.ring.items w.sum w.squares };
}

impl Window {
    /// A window of length 0.
    pub fn new(alloc: Global) -> Result<Window, NoMemory>
        ensures { IfOk result (λ window. window ≡ sample_window 0 []) }
    {
        match HeapCircularBuffer::with_capacity(alloc, LONGEST) {
            Ok(ring) => Ok(Window {
                ring,
                span: 0,
                sum: 0,
                squares: 0,
            }),
            Err(_) => Err(NoMemory),
        }
    }

    /// Makes it a window of this length that holds no sample.
    pub fn start(&mut self, length: u16)
        requires { length ≤ 1024 }
        ensures { self.new ≡ sample_window length [] }
    {
        self.ring.clear();
        self.span = length;
        self.sum = 0;
        self.squares = 0;
    }

    /// Takes in a sample. A window that is full gives up its oldest; one of length 0 stays empty.
    pub fn push(&mut self, sample: u32)
        requires { sample ≤ sample_most }
        ensures { self.new ≡ sample_window self.old.span
            (keep_last self.old.span (self.old.samples ++ sample ∷ [])) }
    {
        if self.span == 0 {
            return;
        }
        self.make_room();
        self.ring.push_back(sample);
        self.sum += sample as u64;
        self.squares += sample as u64 * sample as u64;
    }

    /// Gives up the oldest sample of a full window.
    fn make_room(&mut self)
        requires { 1 ≤ self.old.span }
        ensures { self.new
            ≡ sample_window self.old.span (keep_last (self.old.span - 1) self.old.samples) }
    {
        if self.ring.len() < self.span as usize {
            return;
        }
        if let Some(oldest) = self.ring.pop_front() {
            self.sum -= oldest as u64;
            self.squares -= oldest as u64 * oldest as u64;
        }
    }

    /// Whether it holds as many samples as it is long.
    pub fn is_full(&self) -> bool
        ensures { result ≡ is_full_at self.now.span self.now.samples }
    {
        self.span as usize <= self.ring.len()
    }

    /// The sum of the samples.
    fn sum(&self) -> u128
        ensures value { result ≡ sum self.now.samples }
        ensures small { result ≤ 2 ^ 43 }
    {
        self.sum as u128
    }

    /// The sum of the squares of the samples.
    fn squares(&self) -> u128
        ensures value { result ≡ sum_squares self.now.samples }
        ensures small { result ≤ 2 ^ 75 }
    {
        self.squares as u128
    }

    /// Whether the mean of the samples is at least `load` hundredths.
    pub fn is_busy(&self, load: u128) -> bool
        requires { load < 2 ^ 48 }
        ensures { result ≡ is_busy_at load self.now.span self.now.samples }
    {
        load * self.span as u128 <= 100 * self.sum()
    }

    /// Whether the mean of the samples and their standard deviation together are at most `load`
    /// hundredths.
    pub fn is_quiet(&self, load: u128) -> bool
        requires { load < 2 ^ 48 }
        ensures { result ≡ is_quiet_at load self.now.span self.now.samples }
    {
        let bound = load * self.span as u128;
        let sum = self.sum();
        if bound < 100 * sum {
            return false;
        }
        let spread = self.span as u128 * self.squares() - sum * sum;
        10000 * spread <= (bound - 100 * sum).pow(2)
    }
}
