//! A source in memory.

ghost use Rattle.std.specs.Prelude.{◌≡◌, ◌<◌, ◌≤◌, ◌↔◌, [], length, drop, max, min};
ghost use Rattle.std.specs.Prelude.{Some, IfOk, IsErr, OnErr, OnOk};
ghost use Rattle.edge_streams.specs.Content.{Keeps, Reads};
ghost use Rattle.edge_streams.specs.Faults.{Rises};
ghost use Rattle.edge_streams.specs.Memory.{new_plan, NextFails, after_call, after_failed_call};

use crate::faults::FaultPlan;
use crate::source::{Failed, Source};
use std::marker::Model;

/// Bytes in memory to read from. It tells what is left of them.
#[derive(Drop)]
pub struct MemSource {
    bytes: Vec<u8>,
    /// How many bytes were handed out.
    at: usize,
    /// The most bytes that a call hands out.
    piece: usize,
    plan: FaultPlan,
}

impl Model for MemSource {
    ghost use Rattle.std.specs.Prelude.{◌<◌, ◌≤◌, drop, vec_len};
    ghost use Rattle.edge_streams.specs.Memory.{SourceState};

    ghost Value = { SourceState };

    ghost view = { λ s. record { left = drop s.at s.bytes.items; piece = s.piece; plan = s.plan } };

    ghost invariant = { λ s. (s.at ≤ vec_len s.bytes) × (0 < s.piece) };
}

impl MemSource {
    /// A source of these bytes, which hands out as many a call as fit. `fails` are the
    /// calls that are to fail, counted from 1.
    pub fn new(bytes: Vec<u8>, fails: Vec<u64>) -> MemSource
        ensures { result ≡ record {
          left = bytes.items;
          piece = usize.MAX;
          plan = new_plan fails.items;
        } }
    {
        MemSource::in_pieces(bytes, usize::MAX, fails)
    }

    /// A source of these bytes, which hands out at most `piece` of them a call; a `piece`
    /// of 0 counts as 1. `fails` are the calls that are to fail, counted from 1.
    pub fn in_pieces(bytes: Vec<u8>, piece: usize, fails: Vec<u64>) -> MemSource
        ensures { result ≡ record {
          left = bytes.items;
          piece = max piece 1;
          plan = new_plan fails.items;
        } }
    {
        MemSource {
            bytes,
            at: 0,
            piece: piece.max(1),
            plan: FaultPlan::new(fails),
        }
    }

    /// The bytes that are left to read.
    pub fn left(&self) -> &[u8]
        ensures { result.now ≡ self.now.left }
    {
        &self.bytes[self.at..]
    }

    /// How many calls failed. At its type's end the count stands still.
    pub fn faults(&self) -> u64
        ensures { result ≡ self.now.plan.faults }
    {
        self.plan.faults()
    }

    /// Hands out the next bytes into the front of `buf`, as many as fit into it and into a
    /// piece, and answers how many they are.
    fn hand_out(&mut self, buf: &mut [u8]) -> usize
        ensures count { result ≡ min (min (length self.old.left) (length buf.old)) self.old.piece }
        ensures bytes { Reads result buf.new (Some self.old.left) (Some self.new.left) }
        ensures end { result ≡ 0 → 0 < length buf.old → self.old.left ≡ [] }
        ensures after { self.new ≡ record self.old { left = drop result self.old.left } }
    {
        let left = &self.bytes[self.at..];
        let taken = left.len().min(buf.len()).min(self.piece);
        buf[..taken].copy_from_slice(&left[..taken]);
        self.at += taken;
        taken
    }
}

impl Source for MemSource {
    ghost faults = { λ source. source.plan.faults };

    ghost remaining = { λ source. Some source.left };

    /// Exactly the planned calls fail, and one that fails changes nothing but the counts.
    fn read(&mut self, buf: &mut [u8]) -> Result<usize, Failed>
        ensures within { IfOk result (λ n. n ≤ length buf.new) }
        ensures bytes { IfOk result (λ n.
            Reads n buf.new (Some self.old.left) (Some self.new.left)) }
        ensures end { result ≡ Ok 0 → 0 < length buf.old → self.old.left ≡ [] }
        ensures err { OnErr result (Keeps (Some self.old.left) (Some self.new.left)) }
        ensures failed { OnErr result (Rises self.old.plan.faults self.new.plan.faults) }
        ensures counted { OnOk result (self.new.plan.faults ≡ self.old.plan.faults) }
        ensures never_falls { self.old.plan.faults ≤ self.new.plan.faults }
        ensures planned { IsErr result ↔ NextFails self.old.plan }
        ensures count { IfOk result (λ n.
            n ≡ min (min (length self.old.left) (length buf.old)) self.old.piece) }
        ensures after { IfOk result (λ n. self.new ≡ record self.old {
          left = drop n self.old.left;
          plan = after_call self.old.plan;
        }) }
        ensures fault { OnErr result (self.new ≡ record self.old {
          plan = after_failed_call self.old.plan;
        }) }
        ensures buffer { OnErr result (buf.new ≡ buf.old) }
    {
        self.plan.next_call()?;
        Ok(self.hand_out(buf))
    }
}
