//! A space over copied pages, its spares, and which pages were written.

ghost use Rattle.std.specs.Prelude.{◌≡◌, ℕ, ◌+◌, ◌-◌, ◌^◌, ◌<◌, ◌≤◌, ◌↔◌, length, None, true};
ghost use Rattle.std.specs.Prelude.{OnOk, OnErr, IsOk, Err, IfErr};
ghost use Rattle.machine_model.specs.Hypercall.{packet_limit};
ghost use Rattle.machine_model.specs.Instruction.{store_page_fault};
ghost use Rattle.machine_model.specs.Machine.{least_failing};
ghost use Rattle.space_api.specs.Flat.{is_writable, after_store};
ghost use Rattle.space_api.specs.Frames.{need, Spent};
ghost use Rattle.space_api.specs.Outcomes.{EndsWrite};

use crate::marks::{row_need, with_row};
use plain_space::PlainSpace;
use space_api::{Access, PAGE_SIZE, Space};
use std::alloc::Global;

/// The exception of a store that isn't allowed.
const STORE_PAGE_FAULT: u64 = 15;

/// A space, the pages that were written, and how many spares there are.
#[derive(Drop)]
pub struct Counted {
    pub alloc: Global,
    pub plain: PlainSpace,
    /// The numbers of the pages that were written.
    pub pages: Vec<u64>,
    /// How many spares it holds, at most 16.
    pub spares: u32,
}

impl Counted {
    ghost use Rattle.plain_space.specs.PlainSpace as plain;
    ghost use Rattle.counted_store.specs.Counted.{flat_in, IsCounted};

    /// Does nothing: its contract is that bytes that may be written end at or below 2^38.
    fn ends_below(&self, at: u64, size: usize)
        requires sound { IsCounted self.now }
        requires some { 0 < size }
        requires short { size ≤ packet_limit }
        requires writable { least_failing (is_writable (flat_in self.now)) at size ≡ None }
        ensures { at + size ≤ 2 ^ 38 }
    {
        let _ = &self.plain;
    }

    /// How many frames a write of bytes takes that may be written.
    fn need(&self, at: u64, size: usize) -> u32
        requires sound { IsCounted self.now }
        requires some { 0 < size }
        requires short { size ≤ packet_limit }
        requires writable { least_failing (is_writable (flat_in self.now)) at size ≡ None }
        ensures { result ≡ need true (flat_in self.now).written at size }
    {
        self.ends_below(at, size);
        let end = (at + size as u64 - 1) / PAGE_SIZE + 1;
        row_need(&self.pages, at / PAGE_SIZE, end)
    }

    /// Writes bytes that may be written, and spends what they need. The only error is a want of
    /// memory.
    fn spend(&mut self, at: u64, bytes: &[u8], need: u32) -> Result<(), Access>
        requires sound { IsCounted self.old }
        requires finished { plain.finished self.old.plain ≡ true }
        requires some { 0 < length bytes.now }
        requires short { length bytes.now ≤ packet_limit }
        requires writable { least_failing (is_writable (flat_in self.old)) at (length bytes.now)
            ≡ None }
        requires enough { need ≤ self.old.spares }
        ensures sound { IsCounted self.new }
        ensures finished { plain.finished self.new.plain ≡ true }
        ensures stored { OnOk result (flat_in self.new
            ≡ after_store (flat_in self.old) at bytes.now) }
        ensures spent { OnOk result (self.new.spares + need ≡ self.old.spares) }
        ensures memory { IfErr result (λ access. access ≡ Access.Memory) }
        ensures kept { OnErr result ((flat_in self.new ≡ flat_in self.old)
            × (self.new.spares ≡ self.old.spares)) }
    {
        self.ends_below(at, bytes.len());
        let end = (at + bytes.len() as u64 - 1) / PAGE_SIZE + 1;
        let Ok(pages) = with_row(self.alloc, &self.pages, at / PAGE_SIZE, end) else {
            return Err(Access::Memory);
        };
        if self.plain.write_from(at, bytes).is_err() {
            return Err(Access::Memory);
        }
        self.pages = pages;
        self.spares -= need;
        Ok(())
    }

    /// These bytes stand from `at` on, if each of them may be written and there are as many
    /// spares as that needs.
    pub fn put(&mut self, at: u64, bytes: &[u8]) -> Result<(), Access>
        requires sound { IsCounted self.old }
        requires finished { plain.finished self.old.plain ≡ true }
        requires short { length bytes.now ≤ packet_limit }
        ensures sound { IsCounted self.new }
        ensures finished { plain.finished self.new.plain ≡ true }
        ensures stored { OnOk result (flat_in self.new
            ≡ after_store (flat_in self.old) at bytes.now) }
        ensures ends { EndsWrite true store_page_fault
            (least_failing (is_writable (flat_in self.old)) at (length bytes.now)) result }
        ensures empty { length bytes.now ≡ 0 → IsOk result }
        ensures need { (result ≡ Err Access.NeedFrames)
            ↔ ((least_failing (is_writable (flat_in self.old)) at (length bytes.now) ≡ None)
            × (self.old.spares < need true (flat_in self.old).written at (length bytes.now))) }
        ensures kept { OnErr result ((flat_in self.new ≡ flat_in self.old)
            × (self.new.spares ≡ self.old.spares)) }
        ensures spent { OnOk result (self.new.spares
            + need true (flat_in self.old).written at (length bytes.now) ≡ self.old.spares) }
        ensures whole { Spent true self.old.spares (flat_in self.old).written
            self.new.spares (flat_in self.new).written }
    {
        if bytes.is_empty() {
            return Ok(());
        }
        if let Some(addr) = self.plain.first_unwritable(at, bytes.len()) {
            return Err(Access::Fault {
                cause: STORE_PAGE_FAULT,
                addr,
            });
        }
        let need = self.need(at, bytes.len());
        if need > self.spares {
            return Err(Access::NeedFrames);
        }
        self.spend(at, bytes, need)
    }
}
