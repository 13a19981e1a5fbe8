//! Writes of a space: all pages that a write needs are made before any byte is written.

ghost use Rattle.std.specs.Prelude.{◌≡◌, ℕ, ◌+◌, ◌%◌, ◌^◌, ◌<◌, ◌≤◌, ◌⊎◌, length, None, Some};
ghost use Rattle.std.specs.Prelude.{OnOk, OnErr, IfOk, IsOk, IfErr, Err};
ghost use Rattle.image_model.specs.Pages.{page_of};
ghost use Rattle.machine_model.specs.Hypercall.{packet_limit};
ghost use Rattle.machine_model.specs.Instruction.{store_page_fault};
ghost use Rattle.machine_model.specs.Machine as model;
ghost use Rattle.machine_model.specs.Machine.{address, low_bytes};
ghost use Rattle.space_api.specs.Flat.{is_writable, after_store};
ghost use Rattle.plain_space.specs.Outcomes.{EndsCopy};

use crate::pages::Pages;
use crate::reads::{Use, part_of};
use image_model::PAGE_SIZE;
use machine_model::Memory;
use space_api::Access;

/// The exception of a store that isn't allowed.
const STORE_PAGE_FAULT: u64 = 15;

impl Pages {
    ghost use Rattle.plain_space.specs.Pages.{IsPlace};
    ghost use Rattle.plain_space.specs.Space.{IsSound, HasPage, flat_in};

    /// Makes the pages on which `size` addresses from `at` on lie.
    fn make_pages(&mut self, at: u64, size: usize) -> Result<(), Memory>
        requires { IsSound self.old }
        ensures sound { IsSound self.new }
        ensures flat { flat_in self.new ≡ flat_in self.old }
        ensures made { OnOk result (
            (i : ℕ) → i < size → HasPage self.new (page_of (address at i))) }
    {
        let mut done = 0;
        'parts: while done < size {
            let here = at.wrapping_add(done as u64);
            let part = part_of(here, size - done);
            self.make_page(here / PAGE_SIZE)?;
            done += part;
        }
        Ok(())
    }

    /// Writes a piece at an address on a page that is there.
    fn write_part(&mut self, at: u64, piece: &[u8])
        requires sound { IsSound self.old }
        requires there { HasPage self.old (page_of at) }
        requires some { 0 < length piece.now }
        requires within { at % 2 ^ 12 + length piece.now ≤ 2 ^ 12 }
        ensures sound { IsSound self.new }
        ensures flat { flat_in self.new ≡ after_store (flat_in self.old) at piece.now }
        ensures kept { (m : ℕ) → HasPage self.old m → HasPage self.new m }
    {
        match self.search(at / PAGE_SIZE) {
            Some(i) => self.put_piece(i, at, piece),
            None => unreachable!(),
        }
    }

    /// Writes bytes from `at` on, on pages that are there.
    fn write_bytes(&mut self, at: u64, bytes: &[u8])
        requires sound { IsSound self.old }
        requires there { (i : ℕ) → i < length bytes.now →
            HasPage self.old (page_of (address at i)) }
        ensures sound { IsSound self.new }
        ensures flat { flat_in self.new ≡ after_store (flat_in self.old) at bytes.now }
    {
        let mut done = 0;
        'parts: while done < bytes.len() {
            let here = at.wrapping_add(done as u64);
            let part = part_of(here, bytes.len() - done);
            let piece = &bytes[done..done + part];
            self.write_part(here, piece);
            done += part;
        }
    }

    /// Writes bytes from `at` on, if each of them may be written.
    pub fn write_from(&mut self, at: u64, bytes: &[u8]) -> Result<(), Access>
        requires { IsSound self.old }
        ensures sound { IsSound self.new }
        ensures stored { OnOk result (
            flat_in self.new ≡ after_store (flat_in self.old) at bytes.now) }
        ensures ends { EndsCopy store_page_fault
            (model.least_failing (is_writable (flat_in self.old)) at (length bytes.now)) result }
        ensures empty { length bytes.now ≡ 0 → IsOk result }
        ensures kept { OnErr result (flat_in self.new ≡ flat_in self.old) }
    {
        if bytes.is_empty() {
            return Ok(());
        }
        match self.least_failing(Use::Write, at, bytes.len()) {
            Some(addr) => Err(Access::Fault {
                cause: STORE_PAGE_FAULT,
                addr,
            }),
            None => {
                if self.make_pages(at, bytes.len()).is_err() {
                    return Err(Access::Memory);
                }
                self.write_bytes(at, bytes);
                Ok(())
            }
        }
    }

    /// The low `n` bytes of a number at an address on the i-th page.
    #[inline]
    fn store_on(&mut self, i: usize, at: u64, n: u8, v: u64) -> Result<(), Access>
        requires sound { IsSound self.old }
        requires place { IsPlace self.old.list.items (page_of at) i }
        requires size { (n ≡ 1) ⊎ (n ≡ 2) ⊎ (n ≡ 4) ⊎ (n ≡ 8) }
        requires within { at % 2 ^ 12 + n ≤ 2 ^ 12 }
        ensures sound { IsSound self.new }
        ensures stored { OnOk result (
            flat_in self.new ≡ after_store (flat_in self.old) at (low_bytes n v)) }
        ensures ends { EndsCopy store_page_fault
            (model.least_failing (is_writable (flat_in self.old)) at n) result }
        ensures kept { OnErr result (flat_in self.new ≡ flat_in self.old) }
    {
        let page = &self.list[i];
        if !page.flags.w {
            return Err(Access::Fault {
                cause: STORE_PAGE_FAULT,
                addr: at,
            });
        }
        self.put_number(i, at, n, v);
        Ok(())
    }

    /// The low `n` bytes of a number at an address whose bytes lie on two pages, or on one that
    /// isn't in the list.
    #[cold]
    #[inline(never)]
    fn store_slowly(&mut self, at: u64, n: u8, v: u64) -> Result<(), Access>
        requires sound { IsSound self.old }
        requires size { (n ≡ 1) ⊎ (n ≡ 2) ⊎ (n ≡ 4) ⊎ (n ≡ 8) }
        ensures sound { IsSound self.new }
        ensures stored { OnOk result (
            flat_in self.new ≡ after_store (flat_in self.old) at (low_bytes n v)) }
        ensures ends { EndsCopy store_page_fault
            (model.least_failing (is_writable (flat_in self.old)) at n) result }
        ensures kept { OnErr result (flat_in self.new ≡ flat_in self.old) }
    {
        let bytes = v.to_le_bytes();
        self.write_from(at, &bytes[..usize::from(n)])
    }

    /// The low `n` bytes of `v` stand at `at`, the lowest first.
    #[inline]
    pub fn store(&mut self, at: u64, n: u8, v: u64) -> Result<(), Access>
        requires sound { IsSound self.old }
        requires size { (n ≡ 1) ⊎ (n ≡ 2) ⊎ (n ≡ 4) ⊎ (n ≡ 8) }
        ensures sound { IsSound self.new }
        ensures stored { OnOk result (
            flat_in self.new ≡ after_store (flat_in self.old) at (low_bytes n v)) }
        ensures ends { EndsCopy store_page_fault
            (model.least_failing (is_writable (flat_in self.old)) at n) result }
        ensures kept { OnErr result (flat_in self.new ≡ flat_in self.old) }
    {
        if at % PAGE_SIZE + u64::from(n) > PAGE_SIZE {
            return self.store_slowly(at, n, v);
        }
        match self.find_data(at / PAGE_SIZE) {
            Some(i) => self.store_on(i, at, n, v),
            None => self.store_slowly(at, n, v),
        }
    }
}
