//! Reads of a space: which bytes may be accessed, loads, fetches, and copies out.

ghost use Rattle.std.specs.Prelude.{◌≡◌, ℕ, ◌+◌, ◌%◌, ◌^◌, ◌<◌, ◌≤◌, ◌⊎◌, length, None, Some};
ghost use Rattle.std.specs.Prelude.{OnOk, IfOk, IsOk, Err, MatchBool, if◌then◌else◌};
ghost use Rattle.image_model.specs.Pages.{page_of};
ghost use Rattle.image_model.specs.Permission.{permission_in};
ghost use Rattle.machine_model.specs.Instruction.{instruction_page_fault, load_page_fault};
ghost use Rattle.machine_model.specs.Machine as model;
ghost use Rattle.machine_model.specs.Machine.{bytes_at, range_passes};
ghost use Rattle.space_api.specs.Flat.{is_readable, is_executable, number_at};
ghost use Rattle.space_api.specs.Outcomes.{EndsRead};
ghost use Rattle.plain_space.specs.Pages.{permission_of};
ghost use Rattle.plain_space.specs.Use.{allows};

use crate::bytes::{clear, read_number, read_piece, read_word};
use crate::page::Flags;
use crate::pages::Pages;
use crate::regions::flags_in;
use image_model::PAGE_SIZE;
use space_api::Access;

/// The exception of a fetch that isn't allowed.
const INSTRUCTION_PAGE_FAULT: u64 = 12;

/// The exception of a load that isn't allowed.
const LOAD_PAGE_FAULT: u64 = 13;

/// A way to use bytes.
#[derive(Clone, Copy, Debug, PartialEq, Eq)]
pub enum Use {
    Read,
    Write,
}

/// Whether flags allow the use.
fn allow(flags: Flags, way: Use) -> bool
    ensures { result ≡ allows way (permission_of flags) }
{
    match way {
        Use::Read => flags.r,
        Use::Write => flags.w,
    }
}

/// The lesser of two addresses, where they are there.
fn lesser(a: Option<u64>, b: Option<u64>) -> Option<u64>
    ensures { result ≡ model.lesser a b }
{
    match a {
        None => b,
        Some(x) => match b {
            None => Some(x),
            Some(y) => Some(x.min(y)),
        },
    }
}

/// How many of `size` bytes from `at` on lie on its page.
pub fn part_of(at: u64, size: usize) -> usize
    requires { 0 < size }
    ensures some { 0 < result }
    ensures most { result ≤ size }
    ensures within { at % 2 ^ 12 + result ≤ 2 ^ 12 }
{
    size.min((PAGE_SIZE - at % PAGE_SIZE) as usize)
}

impl Pages {
    ghost use Rattle.plain_space.specs.Pages.{IsPlace, page_with};
    ghost use Rattle.plain_space.specs.Space.{IsSound, IsSame, flat_in};

    /// The address, where its page doesn't allow the use.
    fn failing(&self, way: Use, at: u64) -> Option<u64>
        ensures { result ≡ (if allows way (permission_in self.now.regions.items (page_of at))
            then None else Some at) }
    {
        if allow(flags_in(&self.regions, at / PAGE_SIZE), way) {
            None
        } else {
            Some(at)
        }
    }

    /// The least of `size` addresses from `at` on that doesn't allow the use.
    pub fn least_failing(&self, way: Use, at: u64, size: usize) -> Option<u64>
        ensures { result ≡ model.least_failing
            (λ a. allows way (permission_in self.now.regions.items (page_of a))) at size }
    {
        let mut least = None;
        let mut done = 0;
        'parts: while done < size {
            let here = at.wrapping_add(done as u64);
            let part = part_of(here, size - done);
            let failed = self.failing(way, here);
            let next = lesser(least, failed);
            least = next;
            done += part;
        }
        least
    }

    /// Fills a buffer with bytes of one page.
    fn read_part(&self, at: u64, buf: &mut [u8])
        requires sound { IsSound self.now }
        requires within { at % 2 ^ 12 + length buf.old ≤ 2 ^ 12 }
        ensures { buf.new ≡ bytes_at (flat_in self.now).memory at (length buf.old) }
    {
        match self.search(at / PAGE_SIZE) {
            Some(i) => read_piece(&self.list[i].bytes, (at % PAGE_SIZE) as usize, buf),
            None => clear(buf),
        }
    }

    /// Fills a buffer with the bytes from `at` on.
    fn read_bytes(&self, at: u64, buf: &mut [u8])
        requires { IsSound self.now }
        ensures { buf.new ≡ bytes_at (flat_in self.now).memory at (length buf.old) }
    {
        let mut done = 0;
        'parts: while done < buf.len() {
            let here = at.wrapping_add(done as u64);
            let part = part_of(here, buf.len() - done);
            self.read_part(here, &mut buf[done..done + part]);
            done += part;
        }
    }

    /// Fills a buffer with the bytes from `at` on, if each of them may be read.
    pub fn read_into(&self, at: u64, buf: &mut [u8]) -> Result<(), Access>
        requires { IsSound self.now }
        ensures bytes { OnOk result (
            buf.new ≡ bytes_at (flat_in self.now).memory at (length buf.old)) }
        ensures ends { EndsRead load_page_fault
            (model.least_failing (is_readable (flat_in self.now)) at (length buf.old)) result }
        ensures empty { length buf.old ≡ 0 → IsOk result }
    {
        match self.least_failing(Use::Read, at, buf.len()) {
            Some(addr) => Err(Access::Fault {
                cause: LOAD_PAGE_FAULT,
                addr,
            }),
            None => {
                self.read_bytes(at, buf);
                Ok(())
            }
        }
    }

    /// The number at an address on the i-th page.
    #[inline]
    fn load_on(&self, i: usize, at: u64, n: u8) -> Result<u64, Access>
        requires sound { IsSound self.now }
        requires place { IsPlace self.now.list.items (page_of at) i }
        requires size { (n ≡ 1) ⊎ (n ≡ 2) ⊎ (n ≡ 4) ⊎ (n ≡ 8) }
        requires within { at % 2 ^ 12 + n ≤ 2 ^ 12 }
        ensures value { IfOk result (λ v. v ≡ number_at (flat_in self.now) at n) }
        ensures ends { EndsRead load_page_fault
            (model.least_failing (is_readable (flat_in self.now)) at n) result }
    {
        let page = &self.list[i];
        if !page.flags.r {
            return Err(Access::Fault {
                cause: LOAD_PAGE_FAULT,
                addr: at,
            });
        }
        Ok(read_number(&page.bytes, (at % PAGE_SIZE) as usize, n))
    }

    /// The number at an address whose bytes lie on two pages, or on one that isn't in the list.
    #[cold]
    #[inline(never)]
    fn load_slowly(&self, at: u64, n: u8) -> Result<u64, Access>
        requires sound { IsSound self.now }
        requires size { (n ≡ 1) ⊎ (n ≡ 2) ⊎ (n ≡ 4) ⊎ (n ≡ 8) }
        ensures value { IfOk result (λ v. v ≡ number_at (flat_in self.now) at n) }
        ensures ends { EndsRead load_page_fault
            (model.least_failing (is_readable (flat_in self.now)) at n) result }
    {
        let mut buf = [0; 8];
        let part = &mut buf[..usize::from(n)];
        match self.read_into(at, part) {
            Ok(()) => Ok(read_number(part, 0, n)),
            Err(access) => Err(access),
        }
    }

    /// The `n` bytes at `at` as a number, the lowest byte first.
    #[inline]
    pub fn load(&mut self, at: u64, n: u8) -> Result<u64, Access>
        requires sound { IsSound self.old }
        requires size { (n ≡ 1) ⊎ (n ≡ 2) ⊎ (n ≡ 4) ⊎ (n ≡ 8) }
        ensures value { IfOk result (λ v. v ≡ number_at (flat_in self.old) at n) }
        ensures ends { EndsRead load_page_fault
            (model.least_failing (is_readable (flat_in self.old)) at n) result }
        ensures same { IsSame self.old self.new }
    {
        if at % PAGE_SIZE + u64::from(n) > PAGE_SIZE {
            return self.load_slowly(at, n);
        }
        match self.find_data(at / PAGE_SIZE) {
            Some(i) => self.load_on(i, at, n),
            None => self.load_slowly(at, n),
        }
    }

    /// The instruction word at an address on the i-th page.
    #[inline]
    fn fetch_on(&self, i: usize, at: u64) -> Result<u32, Access>
        requires sound { IsSound self.now }
        requires place { IsPlace self.now.list.items (page_of at) i }
        requires aligned { at % 4 ≡ 0 }
        ensures value { IfOk result (λ w. w ≡ number_at (flat_in self.now) at 4) }
        ensures ends { MatchBool (range_passes (is_executable (flat_in self.now)) at 4)
            (IsOk result)
            (result ≡ Err (Access.Fault instruction_page_fault at)) }
    {
        let page = &self.list[i];
        if !page.flags.x {
            return Err(Access::Fault {
                cause: INSTRUCTION_PAGE_FAULT,
                addr: at,
            });
        }
        Ok(read_word(&page.bytes, (at % PAGE_SIZE) as usize))
    }

    /// The instruction word at an address on a page that isn't in the list.
    #[cold]
    #[inline(never)]
    fn fetch_zeros(&self, at: u64) -> Result<u32, Access>
        requires none { page_with self.now.list.items (page_of at) ≡ None }
        requires aligned { at % 4 ≡ 0 }
        ensures value { IfOk result (λ w. w ≡ number_at (flat_in self.now) at 4) }
        ensures ends { MatchBool (range_passes (is_executable (flat_in self.now)) at 4)
            (IsOk result)
            (result ≡ Err (Access.Fault instruction_page_fault at)) }
    {
        let flags = flags_in(&self.regions, at / PAGE_SIZE);
        if !flags.x {
            return Err(Access::Fault {
                cause: INSTRUCTION_PAGE_FAULT,
                addr: at,
            });
        }
        Ok(0)
    }

    /// The instruction word at `at`, a multiple of 4.
    #[inline]
    pub fn fetch(&mut self, at: u64) -> Result<u32, Access>
        requires sound { IsSound self.old }
        requires aligned { at % 4 ≡ 0 }
        ensures value { IfOk result (λ w. w ≡ number_at (flat_in self.old) at 4) }
        ensures ends { MatchBool (range_passes (is_executable (flat_in self.old)) at 4)
            (IsOk result)
            (result ≡ Err (Access.Fault instruction_page_fault at)) }
        ensures same { IsSame self.old self.new }
    {
        match self.find_code(at / PAGE_SIZE) {
            Some(i) => self.fetch_on(i, at),
            None => self.fetch_zeros(at),
        }
    }
}
