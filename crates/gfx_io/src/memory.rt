// A source and a sink in memory: for tests, and for what a program keeps to itself.
ghost use Rattle.std.specs.Prelude.{◌≡◌, ◌+◌, ◌-◌, ◌^◌, ◌<◌, ◌≤◌, ◌↔◌, List, ℕ, [], ◌++◌, length, drop, take, max, min, IsTrue, IsErr, IfOk, OnOk, OnErr, Contains, Some, true, false, vec_len};
ghost use Rattle.std.specs.List.{All};
ghost use Rattle.std.specs.Io.{ReadsAtMost, WritesAtMost};
ghost use Rattle.std.specs.Io.KnownBytes.{ReadConsumes, WriteAppends};
ghost use Rattle.std.proofs.lemmas.List.Elements.{All-drop};
ghost use Rattle.gfx_io.specs.Causes.{HasCause};
ghost use Rattle.gfx_io.specs.Pieces.{TakesSome};
ghost use Rattle.gfx_io.specs.Memory.{Given, Taken, listed_calls, source_faults, sink_faults};

use crate::{Failed, Sink, Source};
use std::alloc::Global;
use std::marker::Model;

/// Bytes that are given in pieces of a stated size, where stated calls fail.
#[derive(Drop)]
pub struct MemSource {
    bytes: Vec<u8>,
    at: usize,
    most: usize,
    failing: Vec<u64>,
    calls: u64,
    ghost are_bytes: { All (λ b. b < 256) bytes.items },
}

impl Model for MemSource {
    ghost Value = { Given };

    ghost view = { λ s. record { left = drop s.at s.bytes.items; are_bytes = All-drop (λ b. b < 256) s.at s.bytes.items s.are_bytes; most = s.most; failing = s.failing.items; calls = s.calls } };

    ghost invariant = { λ s. (s.at ≤ vec_len s.bytes) × (0 < s.most) };
}

impl MemSource {
    /// Gives at most `most` bytes a call, but at least 1, and fails the calls whose numbers, from 1 on, are listed.
    pub fn new(bytes: Vec<u8>, most: usize, failing: Vec<u64>) -> Self
        ensures left { result.left ≡ bytes.items }
        ensures calls { (result.most ≡ max most 1) × (result.failing ≡ failing.items) × (result.calls ≡ 0) }
    {
        MemSource {
            bytes,
            at: 0,
            most: most.max(1),
            failing,
            calls: 0,
        }
    }

    /// The bytes that reads will still give.
    pub fn left(&self) -> &[u8]
        ensures { result.now ≡ self.now.left }
    {
        &self.bytes[self.at..]
    }
}

impl Source for MemSource {
    ghost left = { λ s. Some s.left };

    ghost faults = { source_faults };

    ghost are_bytes = { λ s. s.are_bytes };

    fn read(&mut self, into: &mut [u8]) -> Result<usize, Failed>
        ensures bound { ReadsAtMost result into.new }
        ensures bytes { ReadConsumes (Some self.old.left) (Some self.new.left) result into.new }
        ensures cause { HasCause (source_faults self.old) (source_faults self.new) result }
        ensures fails { IsErr result ↔ Contains self.old.failing (self.old.calls + 1) }
        ensures count { IfOk result (λ count. count ≡ min (min self.old.most (length into.old)) (length self.old.left)) }
        ensures calls { self.new.calls ≡ min (self.old.calls + 1) (2 ^ 64 - 1) }
        ensures same { (self.new.most ≡ self.old.most) × (self.new.failing ≡ self.old.failing) }
    {
        if next_call_fails(&mut self.calls, &self.failing) {
            return Err(Failed);
        }
        let rest = &self.bytes[self.at..];
        let count = self.most.min(into.len()).min(rest.len());
        into[..count].copy_from_slice(&rest[..count]);
        self.at += count;
        Ok(count)
    }
}

/// A list that takes bytes in pieces of a stated size, where stated calls fail.
#[derive(Drop)]
pub struct MemSink {
    bytes: Vec<u8>,
    most: usize,
    failing: Vec<u64>,
    calls: u64,
    without_memory: u64,
}

impl Model for MemSink {
    ghost Value = { Taken };

    ghost view = { λ s. record { taken = s.bytes.items; most = s.most; failing = s.failing.items; calls = s.calls; without_memory = s.without_memory } };

    ghost invariant = { λ s. 0 < s.most };
}

impl MemSink {
    /// Takes at most `most` bytes a call, but at least 1, and fails the calls whose numbers, from 1 on, are listed.
    pub fn new(alloc: Global, most: usize, failing: Vec<u64>) -> Self
        ensures { result ≡ record { taken = []; most = max most 1; failing = failing.items; calls = 0; without_memory = 0 } }
    {
        MemSink {
            bytes: Vec::new(alloc),
            most: most.max(1),
            failing,
            calls: 0,
            without_memory: 0,
        }
    }

    /// The bytes that it took.
    pub fn into_bytes(self) -> Vec<u8>
        ensures { result.items ≡ self.taken }
    {
        self.bytes
    }
}

impl Sink for MemSink {
    ghost taken = { λ s. Some s.taken };

    ghost faults = { sink_faults };

    /// It also fails, and counts it, where it finds no memory.
    fn write(&mut self, piece: &[u8]) -> Result<usize, Failed>
        ensures bound { WritesAtMost result piece.now }
        ensures bytes { WriteAppends (Some self.old.taken) (Some self.new.taken) result piece.now }
        ensures progress { TakesSome result piece.now }
        ensures cause { HasCause (sink_faults self.old) (sink_faults self.new) result }
        ensures fails { Contains self.old.failing (self.old.calls + 1) → IsErr result }
        ensures count { IfOk result (λ count. count ≡ min self.old.most (length piece.now)) }
        ensures calls { self.new.calls ≡ min (self.old.calls + 1) (2 ^ 64 - 1) }
        ensures same { (self.new.most ≡ self.old.most) × (self.new.failing ≡ self.old.failing) }
    {
        let count = self.most.min(piece.len());
        if next_call_fails(&mut self.calls, &self.failing) {
            return Err(Failed);
        }
        if self.bytes.extend_from_slice(&piece[..count]).is_err() {
            self.without_memory = self.without_memory.saturating_add(1);
            return Err(Failed);
        }
        Ok(count)
    }
}

/// Counts a call, and says whether its number is listed. No list has a number past the count's end.
fn next_call_fails(calls: &mut u64, failing: &[u64]) -> bool
    ensures listed { IsTrue result ↔ Contains failing.now (calls.old + 1) }
    ensures counted { calls.new ≡ min (calls.old + 1) (2 ^ 64 - 1) }
    ensures failed { result ≡ true → listed_calls failing.now calls.old + 1 ≤ listed_calls failing.now calls.new }
    ensures still { result ≡ false → listed_calls failing.now calls.new ≡ listed_calls failing.now calls.old }
{
    match calls.checked_add(1) {
        Some(number) => {
            *calls = number;
            is_listed(failing, number)
        }
        None => false,
    }
}

fn is_listed(failing: &[u64], number: u64) -> bool
    ensures { IsTrue result ↔ Contains failing.now number }
{
    failing.contains(&number)
}
