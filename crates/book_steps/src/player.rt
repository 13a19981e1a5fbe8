//! A played book, with the contexts in hand.

use crate::steps::{Step, Told};
use book_core::Started;
use book_core_tests::{Layered, Played, Rested, Served, Waiter};
use machine_model::{Memory, Packet};
use space_api::{Given, Store};
use std::alloc::Global;

/// A played book, and the contexts that serve.
#[derive(Drop)]
pub struct Player<T: Store> {
    alloc: Global,
    played: Played<T>,
    hands: Vec<Waiter<T::Space>>,
}

/// A request for a function, with a packet of one byte.
fn request_of(alloc: Global, byte: u8, f: u16, t: u64) -> Result<Started, Memory> {
    let bytes = Vec::from_slice(alloc, &[byte])?;
    let Some(packet) = Packet::new(bytes) else {
        return Err(Memory);
    };
    Ok(Started {
        function: f,
        given: Given { packet, clock: t },
    })
}

impl<T: Store> Player<T> {
    /// A player of the book, with nothing in hand.
    pub fn new(alloc: Global, played: Played<T>) -> Player<T> {
        Player {
            alloc,
            played,
            hands: Vec::new(alloc),
        }
    }

    /// The book.
    pub fn book(&self) -> &Played<T> {
        &self.played
    }

    /// The book; what is in hand is let go.
    pub fn into_book(self) -> Played<T> {
        self.played
    }

    /// The context comes to hand.
    fn hold(&mut self, waiter: Waiter<T::Space>) -> Result<(), Memory> {
        if self.hands.push(waiter).is_err() {
            return Err(Memory);
        }
        Ok(())
    }

    /// Where the context of that number is in hand; behind all where it isn't.
    fn place_of(&self, c: u32) -> usize {
        let mut found = self.hands.len();
        for (place, waiter) in self.hands.iter().enumerate() {
            if waiter.id == c {
                found = place;
            }
        }
        found
    }

    /// The context of that number, which is in hand no more.
    fn let_go(&mut self, c: u32) -> Option<Waiter<T::Space>> {
        let place = self.place_of(c);
        if place < self.hands.len() {
            return Some(self.hands.swap_remove(place));
        }
        None
    }

    /// The next request is started. Its packet is the number of those before it.
    fn start(&mut self, f: u16, t: u64) -> Result<Told, Memory> {
        let byte = (self.played.started().len() % 256) as u8;
        let one = request_of(self.alloc, byte, f, t)?;
        match self.played.start(self.alloc, &one)? {
            Some(i) => Ok(Told::Started(i)),
            None => Ok(Told::Not),
        }
    }

    /// A request is served.
    fn serve(&mut self, store: &T, i: u32) -> Result<Told, Memory> {
        match self.played.serve(self.alloc, store, i)? {
            Served::Hot(waiter) => {
                let c = waiter.id;
                self.hold(waiter)?;
                Ok(Told::Hot(c))
            }
            Served::Deployed { waiter, from, hart } => {
                let c = waiter.id;
                self.hold(waiter)?;
                let mark = hart.pc / 4;
                Ok(match from {
                    None => Told::FromImage { c, mark },
                    Some(k) => Told::FromLayer { c, k, mark },
                })
            }
            Served::Frames => Ok(Told::Frames),
            Served::Not => Ok(Told::Not),
        }
    }

    /// A context is captured, and the layer kept.
    fn keep(&mut self, store: &T, c: u32, k: u16, d: u32) -> Result<Told, Memory> {
        let Some(waiter) = self.let_go(c) else {
            return Ok(Told::Missing);
        };
        match self.played.keep(self.alloc, store, waiter, k, d)? {
            Layered::Kept { waiter, went } => {
                self.hold(waiter)?;
                Ok(match went {
                    None => Told::Kept,
                    Some(j) => Told::Dropped(j),
                })
            }
            Layered::Twice(waiter) => {
                self.hold(waiter)?;
                Ok(Told::Twice)
            }
            Layered::NeedFrames(waiter) => {
                self.hold(waiter)?;
                Ok(Told::NeedFrames)
            }
            Layered::Not(waiter) => {
                self.hold(waiter)?;
                Ok(Told::Not)
            }
        }
    }

    /// A context that answered is parked.
    fn park(&mut self, store: &T, i: u32, c: u32) -> Result<Told, Memory> {
        let Some(waiter) = self.let_go(c) else {
            return Ok(Told::Missing);
        };
        match self.played.park(self.alloc, store, i, waiter)? {
            Rested::Parked { went } => Ok(match went {
                None => Told::Parked,
                Some(e) => Told::Evicted(e),
            }),
            Rested::Not(waiter) => {
                self.hold(waiter)?;
                Ok(Told::Not)
            }
        }
    }

    /// A context ends.
    fn end(&mut self, store: &T, i: u32, c: u32, answered: Option<u32>) -> Result<Told, Memory> {
        let Some(waiter) = self.let_go(c) else {
            return Ok(Told::Missing);
        };
        match self.played.end(store, i, waiter, answered)? {
            Some(released) => Ok(Told::Ended(released.frames)),
            None => Ok(Told::Not),
        }
    }

    /// A request finds no memory.
    fn want(&mut self, i: u32) -> Result<Told, Memory> {
        let wanted = self.played.want(i)?;
        Ok(if wanted { Told::Wanted } else { Told::Not })
    }

    /// Makes a call, and answers what it tells.
    fn tried(&mut self, store: &T, step: Step) -> Result<Told, Memory> {
        match step {
            Step::Start { f, t } => self.start(f, t),
            Step::Serve { i } => self.serve(store, i),
            Step::Keep { c, k, d } => self.keep(store, c, k, d),
            Step::Park { i, c } => self.park(store, i, c),
            Step::End { i, c, answered } => self.end(store, i, c, answered),
            Step::Want { i } => self.want(i),
            Step::Abandon => {
                self.played.abandon(store);
                Ok(Told::Stopped)
            }
        }
    }

    /// Makes a call, and answers what it tells.
    pub fn told(&mut self, store: &T, step: Step) -> Told {
        match self.tried(store, step) {
            Ok(told) => told,
            Err(Memory) => Told::Memory,
        }
    }
}
