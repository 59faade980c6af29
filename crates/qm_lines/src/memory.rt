//! Ports in memory, which fail where they are told to.

ghost use Rattle.std.specs.Prelude.{◌≡◌, ◌≢◌, ◌↔◌, ◌++◌, ◌≤◌, ◌<◌, [], List, ℕ, length, take, drop, min, Some, Err, IfOk, OnOk, OnErr, IsErr, IsErrOf, Contains};
ghost use Rattle.std.specs.Io.{ReadsAtMost};
ghost use Rattle.std.specs.Io.KnownBytes.{ReadConsumes};
ghost use Rattle.qm_model.specs.Causes.{IsCause};
ghost use Rattle.qm_lines.specs.Ports.{Takes, one_more, SourceState, SinkState};

use crate::ports::{Failed, Sink, SinkError, Source};
use std::alloc::Global;
use std::marker::Model;

/// A source in memory, which fails exactly at the listed calls, counted from 0 up to `u64::MAX`.
#[derive(Drop)]
pub struct MemSource {
    bytes: Vec<u8>,
    // the place of the next byte
    at: usize,
    fail: Vec<u64>,
    calls: u64,
    faults: u64,
}

impl Model for MemSource {
    ghost Value = { SourceState };

    ghost view = { λ s. record {
      left = drop s.at s.bytes.items;
      fail = s.fail.items;
      calls = s.calls;
      faults = s.faults;
    } };

    ghost invariant = { λ s. s.at ≤ length s.bytes.items };
}

impl MemSource {
    /// A source of these bytes.
    pub fn new(bytes: Vec<u8>, fail: Vec<u64>) -> MemSource
        ensures { result ≡ record { left = bytes.items; fail = fail.items; calls = 0; faults = 0 } }
    {
        MemSource {
            bytes,
            at: 0,
            fail,
            calls: 0,
            faults: 0,
        }
    }
}

// Copies as many bytes as there are and there is room for.
fn copy_front(bytes: &[u8], out: &mut [u8]) -> usize
    ensures count { result ≡ min (length bytes.now) (length out.new) }
    ensures copied { take result out.new ≡ take result bytes.now }
{
    let count = bytes.len().min(out.len());
    out[..count].copy_from_slice(&bytes[..count]);
    count
}

impl Source for MemSource {
    ghost left = { λ s. Some s.left };

    ghost faults = { λ s. s.faults };

    /// Gives as many bytes as it has and there is room for, unless it fails.
    fn read(&mut self, out: &mut [u8]) -> Result<usize, Failed>
        ensures bound { ReadsAtMost result out.new }
        ensures bytes { ReadConsumes (Some self.old.left) (Some self.new.left) result out.new }
        ensures cause { IsCause self.old.faults self.new.faults (IsErr result) }
        ensures steady { OnOk result (self.new.faults ≡ self.old.faults) }

        ensures fails { IsErr result ↔ Contains self.old.fail self.old.calls }
        ensures full { IfOk result (λ n. n ≡ min (length self.old.left) (length out.new)) }
        ensures kept { self.new.fail ≡ self.old.fail }
        ensures counted { self.new.calls ≡ one_more self.old.calls }
        ensures faulty { OnErr result (self.new.faults ≡ one_more self.old.faults) }
    {
        let is_failing = self.fail.contains(&self.calls);
        self.calls = self.calls.saturating_add(1);
        if is_failing {
            self.faults = self.faults.saturating_add(1);
            return Err(Failed);
        }
        let count = copy_front(&self.bytes[self.at..], out);
        self.at += count;
        Ok(count)
    }

    fn faults(&self) -> u64 {
        self.faults
    }
}

/// A sink in memory, which fails exactly at the listed calls, counted from 0 up to `u64::MAX`.
#[derive(Drop)]
pub struct MemSink {
    bytes: Vec<u8>,
    fail: Vec<u64>,
    calls: u64,
    faults: u64,
}

impl Model for MemSink {
    ghost Value = { SinkState };

    ghost view = { λ s. record {
      text = s.bytes.items;
      fail = s.fail.items;
      calls = s.calls;
      faults = s.faults;
    } };
}

impl MemSink {
    /// A sink that took nothing yet.
    pub fn new(alloc: Global, fail: Vec<u64>) -> MemSink
        ensures { result ≡ record { text = []; fail = fail.items; calls = 0; faults = 0 } }
    {
        MemSink {
            bytes: Vec::new(alloc),
            fail,
            calls: 0,
            faults: 0,
        }
    }

    /// The bytes that it took.
    pub fn bytes(&self) -> &[u8]
        ensures { result.now ≡ self.now.text }
    {
        &self.bytes
    }
}

impl Sink for MemSink {
    ghost text = { λ s. Some s.text };

    ghost faults = { λ s. s.faults };

    /// Takes the whole piece, or nothing.
    fn write(&mut self, piece: &[u8]) -> Result<usize, SinkError>
        ensures bound { IfOk result (λ n. n ≤ length piece.now) }
        ensures progress { IfOk result (λ n. 0 < length piece.now → 0 < n) }
        ensures bytes { Takes (Some self.old.text) (Some self.new.text) result piece.now }
        ensures cause { IsCause self.old.faults self.new.faults (IsErrOf result SinkError.Failed) }
        ensures steady { result ≢ Err SinkError.Failed → self.new.faults ≡ self.old.faults }

        ensures fails { IsErrOf result SinkError.Failed ↔ Contains self.old.fail self.old.calls }
        ensures all { IfOk result (λ n. n ≡ length piece.now) }
        ensures grown { OnOk result (self.new.text ≡ self.old.text ++ piece.now) }
        ensures nothing { OnErr result (self.new.text ≡ self.old.text) }
        ensures kept { self.new.fail ≡ self.old.fail }
        ensures counted { self.new.calls ≡ one_more self.old.calls }
        ensures faulty { IsErrOf result SinkError.Failed
            → self.new.faults ≡ one_more self.old.faults }
    {
        let is_failing = self.fail.contains(&self.calls);
        self.calls = self.calls.saturating_add(1);
        if is_failing {
            self.faults = self.faults.saturating_add(1);
            return Err(SinkError::Failed);
        }
        if self.bytes.extend_from_slice(piece).is_err() {
            return Err(SinkError::Memory);
        }
        Ok(piece.len())
    }

    fn faults(&self) -> u64 {
        self.faults
    }
}
