//! The labels of a text.

ghost use Rattle.std.specs.Prelude.{◌≡◌, ◌<◌, ◌^◌, OnOk, None, Some, bytes_eq};
ghost use Rattle.std.specs.Map.{update};
ghost use Rattle.std.specs.HashMap.{get_by};
ghost use Rattle.asm_program.specs.Held.{labels_of, high_address};

use std::alloc::{AllocError, Global};
use std::collections::HashMap;

/// The end of the addresses that a word can hold.
const END: u128 = 1 << 64;

/// Labels and their addresses. The address of a label may lie at or above 2^64, where its segment
/// does; such a text makes no image. An address takes 8 bytes, as a text may be full of labels.
#[derive(Drop)]
pub struct Labels<'a> {
    /// Those below 2^64.
    low: HashMap<&'a [u8], u64>,
    /// By how much the others lie above 2^64.
    high: HashMap<&'a [u8], u64>,
}

impl<'a> Labels<'a> {
    /// No labels.
    pub fn new(alloc: Global) -> Labels<'a>
        ensures { labels_of result ≡ (λ name. None) }
    {
        Labels {
            low: HashMap::new(alloc),
            high: HashMap::new(alloc),
        }
    }

    /// The address of the label, or none where it isn't defined.
    pub fn address_of(&self, name: &[u8]) -> Option<u128>
        ensures { result ≡ labels_of self.now name.now }
    {
        match self.low.get(&name) {
            Some(address) => Some(u128::from(*address)),
            None => self.high_address_of(name),
        }
    }

    /// The address of the label, if it is defined at or above 2^64.
    fn high_address_of(&self, name: &[u8]) -> Option<u128>
        ensures { result ≡ high_address (get_by (λ k. bytes_eq name.now k.now) self.now.high) }
    {
        match self.high.get(&name) {
            Some(over) => Some(END + u128::from(*over)),
            None => None,
        }
    }

    /// Gives a label that isn't defined the address, below 2^65.
    ///
    /// The only error is that memory ran out.
    pub fn define(&mut self, name: &'a [u8], address: u128) -> Result<(), AllocError>
        requires new { labels_of self.old name.now ≡ None }
        requires within { address < 2 ^ 65 }
        ensures { OnOk result (labels_of self.new
            ≡ update bytes_eq (labels_of self.old) name.now (Some address)) }
    {
        if address < END {
            self.low.insert(name, address as u64)?;
        } else {
            self.high.insert(name, (address - END) as u64)?;
        }
        Ok(())
    }
}
