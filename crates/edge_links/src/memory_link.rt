//! A link in memory.

ghost use Rattle.std.specs.Prelude.{◌≡◌, ◌<◌, ◌≤◌, ◌↔◌, ◌++◌, [], length, max, min, take, drop};
ghost use Rattle.std.specs.Prelude.{Some, Ok, IfOk, IsErr, OnErr, OnOk};
ghost use Rattle.edge_streams.specs.Content.{Adds, Keeps, Reads};
ghost use Rattle.edge_streams.specs.Faults.{Rises};
ghost use Rattle.edge_streams.specs.Memory.{new_plan, NextFails, after_call, after_failed_call};
ghost use Rattle.edge_links.specs.LinksInMemory.{when_accepted};

use crate::link::Link;
use edge_streams::{Failed, FaultPlan};
use std::alloc::Global;
use std::marker::Model;

/// Bytes in memory to read, and memory to send to. It tells what is left, and all that was
/// sent.
#[derive(Drop)]
pub struct MemLink {
    bytes: Vec<u8>,
    /// How many bytes were handed out before it was accepted.
    start: usize,
    /// How many bytes were handed out.
    at: usize,
    sent: Vec<u8>,
    /// The most bytes that a call hands out or takes.
    piece: usize,
    plan: FaultPlan,
}

impl Model for MemLink {
    ghost use Rattle.std.specs.Prelude.{◌<◌, ◌≤◌, drop, vec_len};
    ghost use Rattle.edge_links.specs.LinksInMemory.{LinkState};

    ghost Value = { LinkState };

    ghost view = { λ s. record {
      held = drop s.start s.bytes.items;
      left = drop s.at s.bytes.items;
      sent = s.sent.items;
      piece = s.piece;
      plan = s.plan;
    } };

    ghost invariant = { λ s.
        (s.start ≤ vec_len s.bytes) × (s.at ≤ vec_len s.bytes) × (0 < s.piece) };
}

impl MemLink {
    /// A link with these bytes to read, which hands out and takes as many a call as fit.
    /// `fails` are the calls that are to fail, reads and writes counted together from 1.
    pub fn new(alloc: Global, bytes: Vec<u8>, fails: Vec<u64>) -> MemLink
        ensures { result ≡ record {
          held = bytes.items;
          left = bytes.items;
          sent = [];
          piece = usize.MAX;
          plan = new_plan fails.items;
        } }
    {
        MemLink::in_pieces(alloc, bytes, usize::MAX, fails)
    }

    /// A link with these bytes to read, which hands out and takes at most `piece` bytes a
    /// call; a `piece` of 0 counts as 1. `fails` are the calls that are to fail, reads and
    /// writes counted together from 1.
    pub fn in_pieces(alloc: Global, bytes: Vec<u8>, piece: usize, fails: Vec<u64>) -> MemLink
        ensures { result ≡ record {
          held = bytes.items;
          left = bytes.items;
          sent = [];
          piece = max piece 1;
          plan = new_plan fails.items;
        } }
    {
        MemLink {
            bytes,
            start: 0,
            at: 0,
            sent: Vec::new(alloc),
            piece: piece.max(1),
            plan: FaultPlan::new(fails),
        }
    }

    /// The bytes that were left to read when the link was accepted.
    pub fn held(&self) -> &[u8]
        ensures { result.now ≡ self.now.held }
    {
        &self.bytes[self.start..]
    }

    /// The bytes that are left to read.
    pub fn left(&self) -> &[u8]
        ensures { result.now ≡ self.now.left }
    {
        &self.bytes[self.at..]
    }

    /// All bytes that were sent.
    pub fn sent(&self) -> &[u8]
        ensures { result.now ≡ self.now.sent }
    {
        self.sent.as_slice()
    }

    /// How many calls failed. At its type's end the count stands still.
    pub fn faults(&self) -> u64
        ensures { result ≡ self.now.plan.faults }
    {
        self.plan.faults()
    }

    /// Begins a connection: what is left is what it holds, nothing was sent, and no call
    /// failed. The calls go on being counted.
    pub(crate) fn begin(&mut self)
        ensures { self.new ≡ when_accepted self.old }
    {
        self.start = self.at;
        self.sent.clear();
        self.plan.forget_faults();
    }

    /// Hands out the next bytes into the front of `buf`, as many as fit into it and into a
    /// piece, and answers how many they are.
    fn hand_out(&mut self, buf: &mut [u8]) -> usize
        ensures count { result ≡ min (min (length self.old.left) (length buf.old)) self.old.piece }
        ensures bytes { Reads result buf.new (Some self.old.left) (Some self.new.left) }
        ensures end { result ≡ 0 → 0 < length buf.old → self.old.left ≡ [] }
        ensures after { self.new ≡ record self.old { left = drop result self.old.left } }
    {
        let left = &self.bytes[self.at..];
        let taken = left.len().min(buf.len()).min(self.piece);
        buf[..taken].copy_from_slice(&left[..taken]);
        self.at += taken;
        taken
    }
}

impl Link for MemLink {
    ghost faults = { λ link. link.plan.faults };

    ghost held = { λ link. Some link.held };

    ghost remaining = { λ link. Some link.left };

    ghost sent = { λ link. Some link.sent };

    /// Exactly the planned calls fail, and one that fails changes nothing but the counts.
    fn read(&mut self, buf: &mut [u8]) -> Result<usize, Failed>
        ensures within { IfOk result (λ n. n ≤ length buf.new) }
        ensures bytes { IfOk result (λ n.
            Reads n buf.new (Some self.old.left) (Some self.new.left)) }
        ensures end { result ≡ Ok 0 → 0 < length buf.old → self.old.left ≡ [] }
        ensures err { OnErr result (Keeps (Some self.old.left) (Some self.new.left)) }
        ensures nothing_sent { Keeps (Some self.old.sent) (Some self.new.sent) }
        ensures same_start { Keeps (Some self.old.held) (Some self.new.held) }
        ensures failed { OnErr result (Rises self.old.plan.faults self.new.plan.faults) }
        ensures counted { OnOk result (self.new.plan.faults ≡ self.old.plan.faults) }
        ensures never_falls { self.old.plan.faults ≤ self.new.plan.faults }
        ensures planned { IsErr result ↔ NextFails self.old.plan }
        ensures count { IfOk result (λ n.
            n ≡ min (min (length self.old.left) (length buf.old)) self.old.piece) }
        ensures after { IfOk result (λ n. self.new ≡ record self.old {
          left = drop n self.old.left;
          plan = after_call self.old.plan;
        }) }
        ensures fault { OnErr result (self.new ≡ record self.old {
          plan = after_failed_call self.old.plan;
        }) }
        ensures buffer { OnErr result (buf.new ≡ buf.old) }
    {
        self.plan.next_call()?;
        Ok(self.hand_out(buf))
    }

    /// The planned calls fail, and one more only where there is no room for its bytes. A call
    /// that fails changes nothing but the counts.
    fn write(&mut self, bytes: &[u8]) -> Result<usize, Failed>
        ensures within { IfOk result (λ n. n ≤ length bytes.now) }
        ensures some { IfOk result (λ n. 0 < length bytes.now → 0 < n) }
        ensures taken { IfOk result (λ n.
            Adds (take n bytes.now) (Some self.old.sent) (Some self.new.sent)) }
        ensures err { OnErr result (Keeps (Some self.old.sent) (Some self.new.sent)) }
        ensures nothing_read { Keeps (Some self.old.left) (Some self.new.left) }
        ensures same_start { Keeps (Some self.old.held) (Some self.new.held) }
        ensures failed { OnErr result (Rises self.old.plan.faults self.new.plan.faults) }
        ensures counted { OnOk result (self.new.plan.faults ≡ self.old.plan.faults) }
        ensures never_falls { self.old.plan.faults ≤ self.new.plan.faults }
        ensures planned { NextFails self.old.plan → IsErr result }
        ensures count { IfOk result (λ n. n ≡ min (length bytes.now) self.old.piece) }
        ensures after { IfOk result (λ n. self.new ≡ record self.old {
          sent = self.old.sent ++ take n bytes.now;
          plan = after_call self.old.plan;
        }) }
        ensures fault { OnErr result (self.new ≡ record self.old {
          plan = after_failed_call self.old.plan;
        }) }
    {
        self.plan.next_call()?;
        let taken = bytes.len().min(self.piece);
        match self.sent.extend_from_slice(&bytes[..taken]) {
            Ok(()) => Ok(taken),
            Err(_) => Err(self.plan.add_fault()),
        }
    }
}
