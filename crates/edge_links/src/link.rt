//! Connections to a peer.

ghost use Rattle.std.specs.Prelude.{◌≡◌, ℕ, ◌<◌, ◌≤◌, List, [], length, take};
ghost use Rattle.std.specs.Prelude.{Option, Ok, IfSome, IfOk, OnOk, OnErr};
ghost use Rattle.edge_streams.specs.Content.{Adds, Keeps, Reads};
ghost use Rattle.edge_streams.specs.Faults.{Rises};

use edge_streams::Failed;

/// A connection, to read from and to write to.
pub trait Link {
    /// How many calls failed.
    ghost faults: { Self → ℕ };

    /// The bytes that were left to read when it was accepted, where the link tells them.
    ghost held: { Self → Option (List ℕ) };

    /// The bytes that are left to read, where the link tells them.
    ghost remaining: { Self → Option (List ℕ) };

    /// All bytes that were sent, where the link tells them.
    ghost sent: { Self → Option (List ℕ) };

    /// Reads the next bytes into the front of `buf` and answers how many they are. With room
    /// in `buf`, 0 is the end of the input. A call that fails takes nothing. What was sent
    /// stays as it was.
    fn read(&mut self, buf: &mut [u8]) -> Result<usize, Failed>
        ensures within { IfOk result (λ n. n ≤ length buf.new) }
        ensures bytes { IfOk result (λ n.
            Reads n buf.new (remaining self.old) (remaining self.new)) }
        ensures end { result ≡ Ok 0 → 0 < length buf.old →
            IfSome (remaining self.old) (λ left. left ≡ []) }
        ensures err { OnErr result (Keeps (remaining self.old) (remaining self.new)) }
        ensures nothing_sent { Keeps (sent self.old) (sent self.new) }
        ensures same_start { Keeps (held self.old) (held self.new) }
        ensures failed { OnErr result (Rises (faults self.old) (faults self.new)) }
        ensures counted { OnOk result (faults self.new ≡ faults self.old) }
        ensures never_falls { faults self.old ≤ faults self.new };

    /// Sends bytes from the front of `bytes` and answers how many: at least one where there
    /// are any. A call that fails sends nothing. What is left to read stays as it was.
    fn write(&mut self, bytes: &[u8]) -> Result<usize, Failed>
        ensures within { IfOk result (λ n. n ≤ length bytes.now) }
        ensures some { IfOk result (λ n. 0 < length bytes.now → 0 < n) }
        ensures taken { IfOk result (λ n.
            Adds (take n bytes.now) (sent self.old) (sent self.new)) }
        ensures err { OnErr result (Keeps (sent self.old) (sent self.new)) }
        ensures nothing_read { Keeps (remaining self.old) (remaining self.new) }
        ensures same_start { Keeps (held self.old) (held self.new) }
        ensures failed { OnErr result (Rises (faults self.old) (faults self.new)) }
        ensures counted { OnOk result (faults self.new ≡ faults self.old) }
        ensures never_falls { faults self.old ≤ faults self.new };
}
