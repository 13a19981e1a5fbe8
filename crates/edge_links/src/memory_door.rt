//! A door in memory.

ghost use Rattle.std.specs.Prelude.{◌≡◌, ◌<◌, ◌≤◌, ◌↔◌, ◌⊎◌, ◌+◌, ◌++◌, ◌∷◌, [], length, drop};
ghost use Rattle.std.specs.Prelude.{Some, IfSome, IsNone, IfOk, IsErr, OnErr, OnOk};
ghost use Rattle.std.specs.Prelude.{IsTrue, true, false, map};
ghost use Rattle.edge_streams.specs.Faults.{Rises, next_count};
ghost use Rattle.edge_streams.specs.Memory.{new_plan, NextFails, after_call, after_failed_call};
ghost use Rattle.edge_links.specs.Doors.{KeepsLog, Accepts, Refuses, Finishes};
ghost use Rattle.edge_links.specs.LinksInMemory.{when_accepted, door_log};

use crate::door::Door;
use crate::memory_link::MemLink;
use edge_streams::{Failed, FaultPlan, one_more};
use std::alloc::{AllocError, Global};
use std::collections::VecDeque;
use std::marker::Model;

/// Links in memory, to be accepted one after another. It tells how many were, how many calls
/// of `accept` failed, and each link that was finished.
#[derive(Drop)]
pub struct MemDoor {
    listening: bool,
    waiting: VecDeque<MemLink>,
    /// How many links were accepted.
    accepted: usize,
    /// How many calls of `accept` failed. At its type's end it stands still.
    refused: u64,
    /// The links that were finished, with room for all that the door had.
    finished: Vec<MemLink>,
    plan: FaultPlan,
}

impl Model for MemDoor {
    ghost use Rattle.std.specs.Prelude.{◌≤◌, ◌+◌, length, vec_capacity};
    ghost use Rattle.edge_links.specs.LinksInMemory.{DoorState};

    ghost Value = { DoorState };

    ghost view = { λ s. record {
      listening = s.listening;
      waiting = s.waiting.items;
      accepted = s.accepted;
      refused = s.refused;
      finished = s.finished.items;
      plan = s.plan;
    } };

    ghost invariant = { λ s.
        s.accepted + length s.waiting.items ≤ vec_capacity s.finished };
}

impl MemDoor {
    /// A door that doesn't listen yet, with these links, the first of them first. `fails` are
    /// the calls that are to fail, counted from 1. Fails without memory for a list as long.
    pub fn new(alloc: Global, links: Vec<MemLink>, fails: Vec<u64>) -> Result<MemDoor, AllocError>
        ensures { IfOk result (λ door. door ≡ record {
          listening = false;
          waiting = links.items;
          accepted = 0;
          refused = 0;
          finished = [];
          plan = new_plan fails.items;
        }) }
    {
        let finished = Vec::with_capacity(alloc, links.len())?;
        Ok(MemDoor {
            listening: false,
            waiting: VecDeque::from_vec(links),
            accepted: 0,
            refused: 0,
            finished,
            plan: FaultPlan::new(fails),
        })
    }

    /// How many links were accepted.
    pub fn accepted(&self) -> usize
        ensures { result ≡ self.now.accepted }
    {
        self.accepted
    }

    /// How many calls of `accept` failed. At its type's end the count stands still.
    pub fn refused(&self) -> u64
        ensures { result ≡ self.now.refused }
    {
        self.refused
    }

    /// The links that were finished, in the order in which they were.
    pub fn finished(&self) -> &[MemLink]
        ensures { result.now ≡ self.now.finished }
    {
        self.finished.as_slice()
    }

    /// How many calls failed. At its type's end the count stands still.
    pub fn faults(&self) -> u64
        ensures { result ≡ self.now.plan.faults }
    {
        self.plan.faults()
    }

    /// Counts a call, and listens where it isn't planned to fail.
    fn set_listening(&mut self) -> Result<(), Failed>
        ensures planned { IsErr result ↔ NextFails self.old.plan }
        ensures after { OnOk result (self.new ≡ record self.old {
          listening = true;
          plan = after_call self.old.plan;
        }) }
        ensures fault { OnErr result (self.new ≡ record self.old {
          plan = after_failed_call self.old.plan;
        }) }
        ensures failed { OnErr result (Rises self.old.plan.faults self.new.plan.faults) }
        ensures never_falls { self.old.plan.faults ≤ self.new.plan.faults }
    {
        self.plan.next_call()?;
        self.listening = true;
        Ok(())
    }

    /// Takes the next link, where there is one, and counts it.
    fn take_next(&mut self) -> Option<MemLink>
        ensures taken { IfSome result (λ link. self.old.waiting ≡ link ∷ self.new.waiting) }
        ensures none { IsNone result ↔ (self.old.waiting ≡ []) }
        ensures after { IfSome result (λ _. self.new ≡ record self.old {
          waiting = drop 1 self.old.waiting;
          accepted = self.old.accepted + 1;
        }) }
        ensures unchanged { IsNone result → self.new ≡ self.old }
    {
        let link = self.waiting.pop_front()?;
        self.accepted += 1;
        Some(link)
    }

    /// Keeps a link that was served, where it has room for it.
    fn keep(&mut self, link: MemLink)
        ensures kept { length self.old.finished < self.old.accepted →
            self.new ≡ record self.old { finished = self.old.finished ++ link ∷ [] } }
        ensures unchanged { self.old.accepted ≤ length self.old.finished → self.new ≡ self.old }
    {
        if self.finished.len() < self.accepted {
            self.finished.push_reserved(link);
        }
    }
}

impl Door for MemDoor {
    type Conn = MemLink;

    ghost faults = { λ door. door.plan.faults };

    ghost listens = { λ door. IsTrue door.listening };

    ghost log = { λ door. Some (door_log door) };

    /// Exactly the planned calls fail, and one that fails changes nothing but the counts. The
    /// address is of no matter.
    fn listen(&mut self, _address: &str) -> Result<(), Failed>
        ensures listens { OnOk result (IsTrue self.new.listening) }
        ensures still { IsTrue self.old.listening → IsTrue self.new.listening }
        ensures kept { KeepsLog (Some (door_log self.old)) (Some (door_log self.new)) }
        ensures failed { OnErr result (Rises self.old.plan.faults self.new.plan.faults) }
        ensures counted { OnOk result (self.new.plan.faults ≡ self.old.plan.faults) }
        ensures never_falls { self.old.plan.faults ≤ self.new.plan.faults }
        ensures planned { IsErr result ↔ NextFails self.old.plan }
        ensures after { OnOk result (self.new ≡ record self.old {
          listening = true;
          plan = after_call self.old.plan;
        }) }
        ensures fault { OnErr result (self.new ≡ record self.old {
          plan = after_failed_call self.old.plan;
        }) }
    {
        self.set_listening()
    }

    /// As `listen`: this door keeps a list of links of its own.
    fn share(&mut self, first: &MemDoor) -> Result<(), Failed>
        requires { IsTrue first.now.listening }
        ensures listens { OnOk result (IsTrue self.new.listening) }
        ensures still { IsTrue self.old.listening → IsTrue self.new.listening }
        ensures kept { KeepsLog (Some (door_log self.old)) (Some (door_log self.new)) }
        ensures failed { OnErr result (Rises self.old.plan.faults self.new.plan.faults) }
        ensures counted { OnOk result (self.new.plan.faults ≡ self.old.plan.faults) }
        ensures never_falls { self.old.plan.faults ≤ self.new.plan.faults }
        ensures planned { IsErr result ↔ NextFails self.old.plan }
        ensures after { OnOk result (self.new ≡ record self.old {
          listening = true;
          plan = after_call self.old.plan;
        }) }
        ensures fault { OnErr result (self.new ≡ record self.old {
          plan = after_failed_call self.old.plan;
        }) }
    {
        self.set_listening()
    }

    /// The planned calls fail, and those for which there is no link left. One that fails
    /// changes nothing but the counts.
    fn accept(&mut self) -> Result<MemLink, Failed>
        requires { IsTrue self.old.listening }
        ensures listens { IsTrue self.new.listening }
        ensures unsent { IfOk result (λ link. link.sent ≡ []) }
        ensures start { IfOk result (λ link. Some link.held ≡ Some link.left) }
        ensures unfailed { IfOk result (λ link. link.plan.faults ≡ 0) }
        ensures accepted { OnOk result
            (Accepts (Some (door_log self.old)) (Some (door_log self.new))) }
        ensures refused { OnErr result
            (Refuses (Some (door_log self.old)) (Some (door_log self.new))) }
        ensures failed { OnErr result (Rises self.old.plan.faults self.new.plan.faults) }
        ensures counted { OnOk result (self.new.plan.faults ≡ self.old.plan.faults) }
        ensures never_falls { self.old.plan.faults ≤ self.new.plan.faults }
        ensures planned { IsErr result ↔ (NextFails self.old.plan ⊎ (self.old.waiting ≡ [])) }
        ensures next { IfOk result (λ link. map when_accepted self.old.waiting
            ≡ link ∷ map when_accepted self.new.waiting) }
        ensures after { OnOk result (self.new ≡ record self.old {
          waiting = drop 1 self.old.waiting;
          accepted = self.old.accepted + 1;
          plan = after_call self.old.plan;
        }) }
        ensures fault { OnErr result (self.new ≡ record self.old {
          refused = next_count self.old.refused;
          plan = after_failed_call self.old.plan;
        }) }
    {
        if self.plan.next_call().is_err() {
            self.refused = one_more(self.refused);
            return Err(Failed);
        }
        let Some(mut link) = self.take_next() else {
            self.refused = one_more(self.refused);
            return Err(self.plan.add_fault());
        };
        link.begin();
        Ok(link)
    }

    /// Keeps the link as it is. A door that had back as many as it accepted keeps none.
    fn finish(&mut self, conn: MemLink)
        ensures listens { IsTrue self.old.listening → IsTrue self.new.listening }
        ensures told { Finishes (Some conn.held) (Some conn.sent) conn.plan.faults
            (Some (door_log self.old)) (Some (door_log self.new)) }
        ensures counted { self.new.plan.faults ≡ self.old.plan.faults }
        ensures kept { length self.old.finished < self.old.accepted →
            self.new ≡ record self.old { finished = self.old.finished ++ conn ∷ [] } }
        ensures unchanged { self.old.accepted ≤ length self.old.finished → self.new ≡ self.old }
    {
        self.keep(conn);
    }
}
