//! What a machine starts with.

ghost use Rattle.std.specs.Prelude.{◌≡◌};
ghost use Rattle.image_model.specs.Layout.{Layout, IsLayout};

use crate::region::{PageBytes, Region};
use std::marker::Model;

/// What a machine starts with: the address of its first instruction, what may be done with
/// which pages, and the pages that aren't all zeros.
///
/// The entry is a multiple of 4. The regions rise and don't overlap; each may be read or
/// executed, and read where it may be written. The pages rise, each once, and have 4,096
/// bytes, and each is one of a region's. All of them end at or below address 2^38.
#[derive(Debug, Drop)]
pub struct Start {
    entry: u64,
    regions: Vec<Region>,
    pages: Vec<PageBytes>,
}

impl Model for Start {
    ghost use Rattle.image_model.specs.Layout.{Layout, IsLayout};

    ghost Value = { Layout };

    ghost view = { λ s.
        record { entry = s.entry; regions = s.regions.items; pages = s.pages.items } };

    ghost invariant = { λ s.
        IsLayout (record { entry = s.entry; regions = s.regions.items; pages = s.pages.items }) };
}

impl Start {
    /// A start of these parts, which are as the type asks.
    pub fn new(entry: u64, regions: Vec<Region>, pages: Vec<PageBytes>) -> Start
        requires { IsLayout (
            record { entry = entry; regions = regions.items; pages = pages.items }) }
        ensures { result ≡ record { entry = entry; regions = regions.items; pages = pages.items } }
    {
        Start {
            entry,
            regions,
            pages,
        }
    }

    /// The address of the first instruction, a multiple of 4.
    pub fn entry(&self) -> u64
        ensures { result ≡ self.now.entry }
    {
        self.entry
    }

    /// What may be done with which pages, in rising order.
    pub fn regions(&self) -> &[Region]
        ensures { result.now ≡ self.now.regions }
    {
        &self.regions
    }

    /// The pages that have bytes of the image, in rising order. Every other page is zeros.
    pub fn pages(&self) -> &[PageBytes]
        ensures { result.now ≡ self.now.pages }
    {
        &self.pages
    }

    /// Does nothing: its contract is that a start is as its type says.
    pub fn keeps_layout(&self)
        ensures { IsLayout self.now }
    {
        let _ = &self.pages;
    }
}
