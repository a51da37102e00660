//! Sources and a sink in memory: they tell their bytes, and fail only as they are told to.
ghost use Rattle.std.specs.Prelude.{◌≡◌, ◌≢◌, ◌↔◌, ◌+◌, ◌<◌, ◌≤◌, ◌⊎◌, [], ◌++◌, length, take, min, IfOk, OnErr, IsErr, Some, Contains, vec_len, vec_capacity};
ghost use Rattle.paraid_base.specs.Told.{Gives, GrowsByBytes, AtEnd, HasRisen, counter_most};

use crate::plan::FaultPlan;
use crate::{Sink, Source};
use paraid_base::{Failed, NoMemory};
use std::alloc::Global;

/// A source of bytes in memory, which tells what is left. No call fails.
#[derive(Drop)]
pub struct SureSource {
    bytes: Vec<u8>,
    at: usize,
    ghost within: { at ≤ vec_len bytes },
}

impl SureSource {
    ghost use Rattle.paraid_io.specs.Memory.{left_in_sure};

    /// A source of these bytes.
    pub fn new(bytes: Vec<u8>) -> Self
        ensures { ⟦<SureSource as Source>⟧.left result ≡ Some bytes.items }
    {
        SureSource { bytes, at: 0 }
    }

    // Gives as many bytes as there are and as there is room for.
    fn give(&mut self, into: &mut [u8]) -> usize
        requires { 0 < length into.old }
        ensures within { result ≤ length into.old }
        ensures end { result ≡ 0 → left_in_sure self.old ≡ [] }
        ensures gives { left_in_sure self.old ≡ take result into.new ++ left_in_sure self.new }
    {
        let n = take_from(&self.bytes[self.at..], into);
        self.at += n;
        n
    }
}

impl Source for SureSource {
    ghost use Rattle.paraid_io.specs.Memory.{left_in_sure};

    ghost faults = { λ s. 0 };

    ghost left = { λ s. Some (left_in_sure s) };

    fn read_some(&mut self, into: &mut [u8]) -> Result<usize, Failed> {
        Ok(self.give(into))
    }
}

// Copies as many bytes as there are and as there is room for.
fn take_from(bytes: &[u8], into: &mut [u8]) -> usize
    requires { 0 < length into.old }
    ensures within { result ≤ length into.old }
    ensures there { result ≤ length bytes.now }
    ensures end { result ≡ 0 → bytes.now ≡ [] }
    ensures front { take result into.new ≡ take result bytes.now }
{
    let n = bytes.len().min(into.len());
    into[..n].copy_from_slice(&bytes[..n]);
    n
}

/// A source of bytes in memory, which tells what is left. Exactly the calls whose numbers were
/// given fail. Calls are numbered from 0, failed calls too.
#[derive(Drop)]
pub struct MemSource {
    source: SureSource,
    plan: FaultPlan,
}

impl MemSource {
    ghost use Rattle.paraid_io.specs.Memory.{calls_in, fails_in};

    /// A source of these bytes, whose calls of these numbers fail.
    pub fn new(bytes: Vec<u8>, fails: Vec<u32>) -> Self
        ensures left { ⟦<MemSource as Source>⟧.left result ≡ Some bytes.items }
        ensures faults { ⟦<MemSource as Source>⟧.faults result ≡ 0 }
        ensures calls { calls_in result ≡ 0 }
        ensures fails { fails_in result ≡ fails.items }
    {
        MemSource {
            source: SureSource::new(bytes),
            plan: FaultPlan::new(fails),
        }
    }
}

impl Source for MemSource {
    ghost use Rattle.paraid_io.specs.Memory.{left_in, faults_in, calls_in, fails_in};

    ghost faults = { faults_in };

    ghost left = { λ s. Some (left_in s) };

    fn read_some(&mut self, into: &mut [u8]) -> Result<usize, Failed>
        requires { 0 < length into.old }
        ensures within { IfOk result (λ n. n ≤ length into.old) }
        ensures gives { IfOk result (λ n. Gives (Some (left_in self.old)) (Some (left_in self.new))
            (take n into.new)) }
        ensures end { IfOk result (λ n. n ≡ 0 → AtEnd (Some (left_in self.new))) }
        ensures some { IfOk result (λ n. left_in self.old ≢ [] → 0 < n) }
        ensures keeps { OnErr result (Gives (Some (left_in self.old))
            (Some (left_in self.new)) []) }
        ensures later { faults_in self.old ≤ faults_in self.new }
        ensures still { IfOk result (λ n. faults_in self.new ≡ faults_in self.old) }
        ensures cause { OnErr result (HasRisen (faults_in self.old) (faults_in self.new)) }

        // A call fails exactly where its number was given.
        ensures named { IsErr result ↔ Contains (fails_in self.old) (calls_in self.old) }
        ensures calls { calls_in self.new ≡ min (calls_in self.old + 1) counter_most }
        ensures fails { fails_in self.new ≡ fails_in self.old }
    {
        self.plan.call()?;
        Ok(self.source.give(into))
    }
}

/// A sink of bytes into memory that it has from the start, which tells what was written. Exactly
/// the calls whose numbers were given fail, and those that find it full. Calls are numbered from
/// 0, failed calls too.
#[derive(Drop)]
pub struct MemSink {
    bytes: Vec<u8>,
    capacity: usize,
    plan: FaultPlan,
    ghost within: { vec_len bytes ≤ capacity },
    ghost room: { capacity ≤ vec_capacity bytes },
}

impl MemSink {
    ghost use Rattle.paraid_io.specs.Memory.{calls_to, fails_of, capacity_of};

    /// A sink that takes so many bytes in all, and whose calls of these numbers fail.
    pub fn new(alloc: Global, capacity: usize, fails: Vec<u32>) -> Result<Self, NoMemory>
        ensures written { IfOk result (λ s. ⟦<MemSink as Sink>⟧.written s ≡ Some []) }
        ensures faults { IfOk result (λ s. ⟦<MemSink as Sink>⟧.faults s ≡ 0) }
        ensures calls { IfOk result (λ s. calls_to s ≡ 0) }
        ensures fails { IfOk result (λ s. fails_of s ≡ fails.items) }
        ensures capacity { IfOk result (λ s. capacity_of s ≡ capacity) }
    {
        let Ok(bytes) = Vec::with_capacity(alloc, capacity) else {
            return Err(NoMemory);
        };
        Ok(MemSink {
            bytes,
            capacity,
            plan: FaultPlan::new(fails),
        })
    }

    /// The bytes that were written.
    pub fn bytes(&self) -> &[u8]
        ensures { ⟦<MemSink as Sink>⟧.written self.now ≡ Some result.now }
    {
        &self.bytes
    }
}

impl Sink for MemSink {
    ghost use Rattle.paraid_io.specs.Memory.{written_to, faults_of, calls_to, fails_of, capacity_of};

    ghost faults = { faults_of };

    ghost written = { λ s. Some (written_to s) };

    fn write_some(&mut self, bytes: &[u8]) -> Result<usize, Failed>
        requires { 0 < length bytes.now }
        ensures some { IfOk result (λ n. 0 < n) }
        ensures within { IfOk result (λ n. n ≤ length bytes.now) }
        ensures grows { IfOk result (λ n. GrowsByBytes (Some (written_to self.old))
            (Some (written_to self.new)) (take n bytes.now)) }
        ensures keeps { OnErr result (GrowsByBytes (Some (written_to self.old))
            (Some (written_to self.new)) []) }
        ensures later { faults_of self.old ≤ faults_of self.new }
        ensures still { IfOk result (λ n. faults_of self.new ≡ faults_of self.old) }
        ensures cause { OnErr result (HasRisen (faults_of self.old) (faults_of self.new)) }

        // A call fails exactly where its number was given or the sink is full.
        ensures named { IsErr result ↔ (Contains (fails_of self.old) (calls_to self.old)
            ⊎ (capacity_of self.old ≤ length (written_to self.old))) }
        ensures calls { calls_to self.new ≡ min (calls_to self.old + 1) counter_most }
        ensures fails { fails_of self.new ≡ fails_of self.old }
        ensures capacity { capacity_of self.new ≡ capacity_of self.old }
    {
        self.plan.call()?;
        let room = self.capacity - self.bytes.len();
        if room == 0 {
            return Err(self.plan.fail());
        }
        let n = bytes.len().min(room);
        let Ok(()) = self.bytes.extend_from_slice(&bytes[..n]) else {
            return Err(self.plan.fail());
        };
        Ok(n)
    }
}
