//! Where connections come from.

ghost use Rattle.std.specs.Prelude.{◌≡◌, ℕ, ◌≤◌, List, []};
ghost use Rattle.std.specs.Prelude.{Option, IfSome, IfOk, OnOk, OnErr};
ghost use Rattle.edge_streams.specs.Faults.{Rises};
ghost use Rattle.edge_links.specs.Doors.{DoorLog, KeepsLog, Accepts, Refuses, Finishes};

use crate::link::Link;
use edge_streams::Failed;

/// Where connections come from, one after another.
pub trait Door {
    /// A connection.
    type Conn: Link;

    /// How many calls on the door failed.
    ghost faults: { Self → ℕ };

    /// The door listens, so connections may be accepted.
    ghost listens: { Self → Type 0 };

    /// What it accepted and what was finished, where the door tells it.
    ghost log: { Self → Option DoorLog };

    /// Listens at an address: a host and a port. A door that listens goes on where this fails.
    fn listen(&mut self, address: &str) -> Result<(), Failed>
        ensures listens { OnOk result (listens self.new) }
        ensures still { listens self.old → listens self.new }
        ensures kept { KeepsLog (log self.old) (log self.new) }
        ensures failed { OnErr result (Rises (faults self.old) (faults self.new)) }
        ensures counted { OnOk result (faults self.new ≡ faults self.old) }
        ensures never_falls { faults self.old ≤ faults self.new };

    /// Listens by the listener of `first`, so that each connection comes to one of the two.
    fn share(&mut self, first: &Self) -> Result<(), Failed>
        requires { listens first.now }
        ensures listens { OnOk result (listens self.new) }
        ensures still { listens self.old → listens self.new }
        ensures kept { KeepsLog (log self.old) (log self.new) }
        ensures failed { OnErr result (Rises (faults self.old) (faults self.new)) }
        ensures counted { OnOk result (faults self.new ≡ faults self.old) }
        ensures never_falls { faults self.old ≤ faults self.new };

    /// The next connection, to which nothing was sent yet and of which no call failed. It may
    /// wait for a peer.
    fn accept(&mut self) -> Result<Self::Conn, Failed>
        requires { listens self.old }
        ensures listens { listens self.new }
        ensures unsent { IfOk result (λ conn. IfSome (Self.Conn.sent conn) (λ sent. sent ≡ [])) }
        ensures start { IfOk result (λ conn. Self.Conn.held conn ≡ Self.Conn.remaining conn) }
        ensures unfailed { IfOk result (λ conn. Self.Conn.faults conn ≡ 0) }
        ensures accepted { OnOk result (Accepts (log self.old) (log self.new)) }
        ensures refused { OnErr result (Refuses (log self.old) (log self.new)) }
        ensures failed { OnErr result (Rises (faults self.old) (faults self.new)) }
        ensures counted { OnOk result (faults self.new ≡ faults self.old) }
        ensures never_falls { faults self.old ≤ faults self.new };

    /// Takes back a connection that was served. It always answers.
    fn finish(&mut self, conn: Self::Conn)
        ensures listens { listens self.old → listens self.new }
        ensures told { Finishes (Self.Conn.held conn) (Self.Conn.sent conn)
            (Self.Conn.faults conn) (log self.old) (log self.new) }
        ensures counted { faults self.new ≡ faults self.old };
}
