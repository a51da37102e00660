//! Takes the bytes that a source gives, and counts them.
ghost use Rattle.std.specs.Prelude.{◌≡◌, ◌≢◌, ◌≤◌, ◌<◌, ℕ, List, length, take, IfOk, IfErr, OnOk};
ghost use Rattle.paraid_base.specs.Told.{stream_most};

use crate::NbdEnd;
use paraid_io::{MAX_TAKEN, Source};

/// How many bytes are let go at a time.
const PIECE: u32 = 4096;

/// How many bytes were taken.
#[derive(Drop)]
pub(crate) struct Input {
    pub(crate) taken: u64,
    ghost limit: { taken ≤ stream_most },
}

impl Input {
    ghost use Rattle.paraid_nbd.specs.Taking.{Takes, Lacks};

    pub(crate) fn new() -> Self
        ensures { result.taken ≡ 0 }
    {
        Input { taken: 0 }
    }

    // Takes some of the next bytes, at least one.
    fn take_some<S: Source>(&mut self, source: &mut S, into: &mut [u8]) -> Result<usize, NbdEnd>
        requires { 0 < length into.old }
        ensures some { IfOk result (λ n. 0 < n) }
        ensures within { IfOk result (λ n. n ≤ length into.old) }
        ensures takes { IfOk result (λ n. Takes (S.left source.old) (S.left source.new)
            self.old.taken self.new.taken (take n into.new)) }
        ensures lacks { IfErr result (λ e. Lacks (S.left source.old) (S.left source.new)
            self.old.taken self.new.taken 1 (S.faults source.old) (S.faults source.new) e) }
        ensures later { S.faults source.old ≤ S.faults source.new }
        ensures still { result ≢ Err NbdEnd.Source → S.faults source.new ≡ S.faults source.old }
    {
        let room = MAX_TAKEN - self.taken;
        if room == 0 {
            return Err(NbdEnd::TooLong { bytes: MAX_TAKEN });
        }
        let most = (into.len() as u64).min(room) as usize;
        match source.read_some(&mut into[..most]) {
            Ok(0) => Err(NbdEnd::Closed),
            Ok(n) => {
                self.taken += n as u64;
                Ok(n)
            }
            Err(_failed) => Err(NbdEnd::Source),
        }
    }

    /// Fills a slice with the next bytes.
    pub(crate) fn fill<S: Source>(&mut self, source: &mut S, into: &mut [u8]) -> Result<(), NbdEnd>
        ensures takes { OnOk result (Takes (S.left source.old) (S.left source.new)
            self.old.taken self.new.taken into.new) }
        ensures lacks { IfErr result (λ e. Lacks (S.left source.old) (S.left source.new)
            self.old.taken self.new.taken (length into.old)
            (S.faults source.old) (S.faults source.new) e) }
        ensures later { S.faults source.old ≤ S.faults source.new }
        ensures still { result ≢ Err NbdEnd.Source → S.faults source.new ≡ S.faults source.old }
    {
        let mut done = 0;
        while done < into.len() {
            let n = self.take_some(source, &mut into[done..])?;
            done += n;
        }
        Ok(())
    }

    /// Takes so many bytes and lets them go.
    pub(crate) fn skip<S: Source>(&mut self, source: &mut S, count: u32) -> Result<(), NbdEnd>
        ensures takes { OnOk result ((got : List ℕ) × (length got ≡ count)
            × Takes (S.left source.old) (S.left source.new) self.old.taken self.new.taken got) }
        ensures lacks { IfErr result (λ e. Lacks (S.left source.old) (S.left source.new)
            self.old.taken self.new.taken count (S.faults source.old) (S.faults source.new) e) }
        ensures later { S.faults source.old ≤ S.faults source.new }
        ensures still { result ≢ Err NbdEnd.Source → S.faults source.new ≡ S.faults source.old }
    {
        let mut done = 0;
        while done < count {
            let n = PIECE.min(count - done);
            self.skip_piece(source, n)?;
            done += n;
        }
        Ok(())
    }

    // Takes so few bytes and lets them go.
    fn skip_piece<S: Source>(&mut self, source: &mut S, count: u32) -> Result<(), NbdEnd>
        requires { count ≤ 4096 }
        ensures takes { OnOk result ((got : List ℕ) × (length got ≡ count)
            × Takes (S.left source.old) (S.left source.new) self.old.taken self.new.taken got) }
        ensures lacks { IfErr result (λ e. Lacks (S.left source.old) (S.left source.new)
            self.old.taken self.new.taken count (S.faults source.old) (S.faults source.new) e) }
        ensures later { S.faults source.old ≤ S.faults source.new }
        ensures still { result ≢ Err NbdEnd.Source → S.faults source.new ≡ S.faults source.old }
    {
        let mut bytes = [0; PIECE as usize];
        let piece = &mut bytes[..count as usize];
        self.fill(source, piece)
    }
}
