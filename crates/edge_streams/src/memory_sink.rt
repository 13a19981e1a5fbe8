//! A sink in memory.

ghost use Rattle.std.specs.Prelude.{◌≡◌, ◌<◌, ◌≤◌, ◌++◌, [], length, max, min, take};
ghost use Rattle.std.specs.Prelude.{Some, IfOk, IsErr, OnErr, OnOk};
ghost use Rattle.edge_streams.specs.Content.{Adds, Keeps};
ghost use Rattle.edge_streams.specs.Faults.{Rises};
ghost use Rattle.edge_streams.specs.Memory.{new_plan, NextFails, after_call, after_failed_call};

use crate::faults::FaultPlan;
use crate::sink::Sink;
use crate::source::Failed;
use std::alloc::Global;
use std::marker::Model;

/// Memory to write to. It tells all that was written.
#[derive(Drop)]
pub struct MemSink {
    written: Vec<u8>,
    /// The most bytes that a call takes.
    piece: usize,
    plan: FaultPlan,
}

impl Model for MemSink {
    ghost use Rattle.std.specs.Prelude.{◌<◌};
    ghost use Rattle.edge_streams.specs.Memory.{SinkState};

    ghost Value = { SinkState };

    ghost view = { λ s. record { written = s.written.items; piece = s.piece; plan = s.plan } };

    ghost invariant = { λ s. 0 < s.piece };
}

impl MemSink {
    /// An empty sink, which takes all of the bytes of a call. `fails` are the calls that
    /// are to fail, counted from 1.
    pub fn new(alloc: Global, fails: Vec<u64>) -> MemSink
        ensures { result ≡ record {
          written = [];
          piece = usize.MAX;
          plan = new_plan fails.items;
        } }
    {
        MemSink::in_pieces(alloc, usize::MAX, fails)
    }

    /// An empty sink, which takes at most `piece` bytes a call; a `piece` of 0 counts as 1.
    /// `fails` are the calls that are to fail, counted from 1.
    pub fn in_pieces(alloc: Global, piece: usize, fails: Vec<u64>) -> MemSink
        ensures { result ≡ record {
          written = [];
          piece = max piece 1;
          plan = new_plan fails.items;
        } }
    {
        MemSink {
            written: Vec::new(alloc),
            piece: piece.max(1),
            plan: FaultPlan::new(fails),
        }
    }

    /// All bytes that were written.
    pub fn as_slice(&self) -> &[u8]
        ensures { result.now ≡ self.now.written }
    {
        self.written.as_slice()
    }

    /// How many calls failed. At its type's end the count stands still.
    pub fn faults(&self) -> u64
        ensures { result ≡ self.now.plan.faults }
    {
        self.plan.faults()
    }
}

impl Sink for MemSink {
    ghost faults = { λ sink. sink.plan.faults };

    ghost contents = { λ sink. Some sink.written };

    /// The planned calls fail, and one more only where there is no memory for its bytes. A
    /// call that fails changes nothing but the counts.
    fn write(&mut self, bytes: &[u8]) -> Result<usize, Failed>
        ensures within { IfOk result (λ n. n ≤ length bytes.now) }
        ensures some { IfOk result (λ n. 0 < length bytes.now → 0 < n) }
        ensures taken { IfOk result (λ n.
            Adds (take n bytes.now) (Some self.old.written) (Some self.new.written)) }
        ensures err { OnErr result (Keeps (Some self.old.written) (Some self.new.written)) }
        ensures failed { OnErr result (Rises self.old.plan.faults self.new.plan.faults) }
        ensures counted { OnOk result (self.new.plan.faults ≡ self.old.plan.faults) }
        ensures never_falls { self.old.plan.faults ≤ self.new.plan.faults }
        ensures planned { NextFails self.old.plan → IsErr result }
        ensures count { IfOk result (λ n. n ≡ min (length bytes.now) self.old.piece) }
        ensures after { IfOk result (λ n. self.new ≡ record self.old {
          written = self.old.written ++ take n bytes.now;
          plan = after_call self.old.plan;
        }) }
        ensures fault { OnErr result (self.new ≡ record self.old {
          plan = after_failed_call self.old.plan;
        }) }
    {
        self.plan.next_call()?;
        let taken = bytes.len().min(self.piece);
        match self.written.extend_from_slice(&bytes[..taken]) {
            Ok(()) => Ok(taken),
            Err(_) => Err(self.plan.add_fault()),
        }
    }
}
