//! A sink that takes octets.

ghost use Rattle.std.specs.Prelude.{◌<◌, ◌≤◌, ℕ, List, Option, length, take, OnErr, IfOk};
ghost use Rattle.std.specs.Io.KnownBytes.{Appends, Keeps};
ghost use Rattle.io_edges.specs.Counts.{Rose};
ghost use Rattle.io_edges.specs.Passed.{PassedFront};

use crate::failed::Failed;

/// A sink that takes octets in order.
pub trait Sink {
    /// The bytes taken so far, where the sink tells them.
    ghost taken: { Self → Option (List ℕ) };

    /// The bytes passed on so far, where they are known: what stands behind the sink holds them.
    ghost passed: { Self → Option (List ℕ) };

    /// How many calls failed. The count never falls, and stands still at 2^64 - 1.
    ghost faults: { Self → ℕ };

    /// Takes a front of these octets, passes exactly it on, and answers its length: at least one where there are any. After
    /// a failure it took nothing, and it may have passed on a front.
    fn write(&mut self, bytes: &[u8]) -> Result<usize, Failed>
        // What is taken. A sink that tells its bytes goes on telling them.
        ensures fits { IfOk result (λ count. count ≤ length bytes.now) }
        ensures some { IfOk result (λ count. 0 < length bytes.now → 0 < count) }
        ensures appends { IfOk result (λ count.
            Appends (taken self.old) (taken self.new) (take count bytes.now)) }
        ensures err { OnErr result (Keeps (taken self.old) (taken self.new)) }

        // What is passed on. A sink that knows what it passed on goes on knowing it.
        ensures passes { IfOk result (λ count.
            Appends (passed self.old) (passed self.new) (take count bytes.now)) }
        ensures passes_front { OnErr result (PassedFront (passed self.old) (passed self.new) bytes.now) }

        // When it fails.
        ensures cause { OnErr result (Rose (faults self.old) (faults self.new)) }
        ensures never_falls { faults self.old ≤ faults self.new };
}
