//! Sources and sinks of bytes.
ghost use Rattle.std.specs.Prelude.{◌≡◌, ℕ, ◌<◌, ◌≤◌, List, [], length, take, Option, IfOk, OnOk, OnErr};
ghost use Rattle.edges.specs.Faults.{HasRisen};
ghost use Rattle.edges.specs.Told.{Appends, IsAtEnd, Takes};

/// A call of a source or a sink failed, and its count of faults rose.
#[derive(Clone, Copy, PartialEq, Eq, Debug)]
pub struct Failed;

/// Where bytes come from.
pub trait Source {
    // The bytes still to come, where they are known.
    ghost left: { Self → Option (List ℕ) };

    // How many calls failed so far.
    ghost faults: { Self → ℕ };

    // The names of the references that it holds, which no call exchanges.
    ghost loans: { Self → List ℕ } = { λ _. [] };

    /// Takes the next bytes into the front of `buf`, and returns how many; 0 is the end of input.
    fn take(&mut self, buf: &mut [u8]) -> Result<usize, Failed>
        requires { 0 < length buf.old }
        ensures within { IfOk result (λ n. n ≤ length buf.old) }
        ensures taken { IfOk result (λ n. Takes (left self.old) (left self.new) (take n buf.new)) }
        ensures ended { IfOk result (λ n. n ≡ 0 → IsAtEnd (left self.new)) }
        ensures quiet { OnOk result (faults self.new ≡ faults self.old) }
        ensures failed { OnErr result (HasRisen (faults self.old) (faults self.new)) }
        ensures none_lost { OnErr result (left self.new ≡ left self.old) }
        ensures loans { loans self.new ≡ loans self.old };
}

/// Where bytes go.
pub trait Sink {
    // The bytes put so far, where they are known.
    ghost written: { Self → Option (List ℕ) };

    // How many calls failed so far.
    ghost faults: { Self → ℕ };

    /// Puts the first bytes of `buf`, and returns how many.
    fn put(&mut self, buf: &[u8]) -> Result<usize, Failed>
        requires { 0 < length buf.now }
        ensures within { IfOk result (λ n. (1 ≤ n) × (n ≤ length buf.now)) }
        ensures appended { IfOk result (λ n. Appends (written self.old) (written self.new) (take n buf.now)) }
        ensures quiet { OnOk result (faults self.new ≡ faults self.old) }
        ensures failed { OnErr result (HasRisen (faults self.old) (faults self.new)) }
        ensures none_added { OnErr result (written self.new ≡ written self.old) };
}
