//! The pages of a space, found by their numbers.

ghost use Rattle.std.specs.Prelude.{◌≡◌, ℕ, ◌+◌, ◌%◌, ◌^◌, ◌<◌, ◌≤◌, ◌⊎◌, IsTrue, length};
ghost use Rattle.std.specs.Prelude.{OnOk, IfOk, None};
ghost use Rattle.image_model.specs.Pages.{page_of};
ghost use Rattle.machine_model.specs.Machine.{low_bytes};
ghost use Rattle.space_api.specs.Flat.{after_store};

use crate::bytes::{write_number, write_piece, zeros};
use crate::page::Page;
use crate::regions::flags_in;
use image_model::{PAGE_SIZE, Region};
use machine_model::Memory;
use std::alloc::Global;

/// How many guesses there are of where a page is, one for each rest of a page's number.
const GUESSES: u64 = 64;

/// Pages that were copied or written, in rising order, and the regions that say what may be
/// done with them and with all others, which are zeros.
#[derive(Drop)]
pub struct Pages {
    pub alloc: Global,
    pub regions: Vec<Region>,
    pub list: Vec<Page>,
    /// Where in the list a page to fetch from may be, by the rest of its number. A place of
    /// 65,536 or above isn't kept: its page is searched for each time.
    pub code: [u16; 64],
    /// Where in the list a page to read or write may be, by the rest of its number, kept as
    /// `code` keeps it.
    pub data: [u16; 64],
}

impl Pages {
    ghost use Rattle.plain_space.specs.Pages.{IsSplit, IsPlace, Finds, page_with};
    ghost use Rattle.plain_space.specs.Space.{IsSound, IsSame, HasPage, flat_in};

    /// How many pages have numbers below this one.
    fn place(&self, number: u64) -> usize
        requires { IsSound self.now }
        ensures { IsSplit self.now.list.items number result }
    {
        self.list.partition_point(|page| page.number < number)
    }

    /// Where the page with this number is in the list.
    #[inline(never)]
    pub fn search(&self, number: u64) -> Option<usize>
        requires { IsSound self.now }
        ensures { Finds self.now.list.items number result }
    {
        let i = self.place(number);
        if i < self.list.len() && self.list[i].number == number {
            Some(i)
        } else {
            None
        }
    }

    /// Whether the page with this number is where it was guessed to be.
    #[inline]
    fn is_at(&self, guess: usize, number: u64) -> bool
        requires { IsSound self.now }
        ensures { IsTrue result → IsPlace self.now.list.items number guess }
    {
        guess < self.list.len() && self.list[guess].number == number
    }

    /// Where the page with this number is in the list, to fetch from it.
    #[inline]
    pub fn find_code(&mut self, number: u64) -> Option<usize>
        requires { IsSound self.old }
        ensures found { Finds self.new.list.items number result }
        ensures same { IsSame self.old self.new }
    {
        let slot = (number % GUESSES) as usize;
        let guess = self.code[slot] as usize;
        if self.is_at(guess, number) {
            return Some(guess);
        }
        let found = self.search(number);
        if let Some(i) = found {
            self.code[slot] = u16::try_from(i).unwrap_or(0);
        }
        found
    }

    /// Where the page with this number is in the list, to read or write it.
    #[inline]
    pub fn find_data(&mut self, number: u64) -> Option<usize>
        requires { IsSound self.old }
        ensures found { Finds self.new.list.items number result }
        ensures same { IsSame self.old self.new }
    {
        let slot = (number % GUESSES) as usize;
        let guess = self.data[slot] as usize;
        if self.is_at(guess, number) {
            return Some(guess);
        }
        let found = self.search(number);
        if let Some(i) = found {
            self.data[slot] = u16::try_from(i).unwrap_or(0);
        }
        found
    }

    /// Writes the low `n` bytes of a number at an address on the i-th page.
    #[inline]
    pub fn put_number(&mut self, i: usize, at: u64, n: u8, v: u64)
        requires sound { IsSound self.old }
        requires place { IsPlace self.old.list.items (page_of at) i }
        requires size { (n ≡ 1) ⊎ (n ≡ 2) ⊎ (n ≡ 4) ⊎ (n ≡ 8) }
        requires within { at % 2 ^ 12 + n ≤ 2 ^ 12 }
        ensures sound { IsSound self.new }
        ensures flat { flat_in self.new ≡ after_store (flat_in self.old) at (low_bytes n v) }
    {
        let page = &mut self.list[i];
        page.written = true;
        write_number(&mut page.bytes, (at % PAGE_SIZE) as usize, n, v);
    }

    /// Writes a piece at an address on the i-th page.
    pub fn put_piece(&mut self, i: usize, at: u64, piece: &[u8])
        requires sound { IsSound self.old }
        requires place { IsPlace self.old.list.items (page_of at) i }
        requires some { 0 < length piece.now }
        requires within { at % 2 ^ 12 + length piece.now ≤ 2 ^ 12 }
        ensures sound { IsSound self.new }
        ensures flat { flat_in self.new ≡ after_store (flat_in self.old) at piece.now }
        ensures kept { (m : ℕ) → HasPage self.old m → HasPage self.new m }
    {
        let page = &mut self.list[i];
        page.written = true;
        write_piece(&mut page.bytes, (at % PAGE_SIZE) as usize, piece);
    }

    /// Adds a page of zeros, that wasn't written, with a number that no page has.
    fn add_page(&mut self, number: u64) -> Result<(), Memory>
        requires sound { IsSound self.old }
        requires none { page_with self.old.list.items number ≡ None }
        ensures sound { IsSound self.new }
        ensures flat { flat_in self.new ≡ flat_in self.old }
        ensures made { OnOk result (HasPage self.new number) }
        ensures kept { (m : ℕ) → HasPage self.old m → HasPage self.new m }
    {
        let i = self.place(number);
        let page = Page {
            number,
            flags: flags_in(&self.regions, number),
            written: false,
            bytes: zeros(self.alloc, PAGE_SIZE as usize)?,
        };
        if self.list.insert(i, page).is_err() {
            return Err(Memory);
        }
        Ok(())
    }

    /// Makes a page with this number, where there is none, of zeros that weren't written.
    pub fn make_page(&mut self, number: u64) -> Result<(), Memory>
        requires { IsSound self.old }
        ensures sound { IsSound self.new }
        ensures flat { flat_in self.new ≡ flat_in self.old }
        ensures made { OnOk result (HasPage self.new number) }
        ensures kept { (m : ℕ) → HasPage self.old m → HasPage self.new m }
    {
        match self.search(number) {
            Some(_) => Ok(()),
            None => self.add_page(number),
        }
    }
}
