// The traits of what gives octets and of what takes them.
ghost use Rattle.std.specs.Prelude.{◌≡◌, ◌||◌, ℕ, ◌≤◌, Bool, List, [], ◌∷◌, Option, None, length, take, OnOk, OnErr, IsTrue};
ghost use Rattle.std.specs.Io.{ReadsAtMost, WritesAtMost};
ghost use Rattle.std.specs.Io.KnownBytes.{append_known, prepend_known, IsAtEnd};
ghost use Rattle.tm_base.specs.Outside.{HasCause, HasWriteCause, Read, append_reads, is_nothing, moved, read_of};

/// A read or a write failed.
#[derive(Clone, Copy, Debug, PartialEq, Eq)]
pub struct Failed;

/// There was not enough memory.
#[derive(Clone, Copy, Debug, PartialEq, Eq)]
pub struct NoMemory;

/// What gives octets until it ends. It counts its faults, and the count never falls.
pub trait Source {
    /// The octets that it has given, where it says which.
    ghost given: { Self → Option (List ℕ) };

    /// The octets that are left, where it says which.
    ghost left: { Self → Option (List ℕ) };

    /// Whether it has said that nothing is left.
    ghost ended: { Self → Bool };

    /// How often a read has failed.
    ghost faults: { Self → ℕ };

    /// The count of faults stands at its last value, so that it can't rise.
    ghost is_last: { Self → Type 0 };

    /// The reads so far, where it says which.
    ghost asked: { Self → Option (List Read) } = { λ s. None };

    /// Fills the start of `buf` with the octets that come next, and returns how many it gave. With room in `buf`,
    /// `Ok(0)` is the end of the input. `Failed` comes only where the count of faults rose, and gives nothing.
    fn read(&mut self, buf: &mut [u8]) -> Result<usize, Failed>
        ensures bound { ReadsAtMost result buf.new }
        ensures given { given self.new ≡ append_known (given self.old) (moved result buf.new) }
        ensures left { left self.old ≡ prepend_known (moved result buf.new) (left self.new) }
        ensures ended { ended self.new ≡ (ended self.old || is_nothing result buf.new) }
        ensures end { IsTrue (is_nothing result buf.new) → IsAtEnd (left self.new) }
        ensures cause { HasCause (faults self.old) (faults self.new) (is_last self.new) result }
        ensures asked { asked self.new ≡ append_reads (asked self.old) (read_of result buf.new ∷ []) };
}

/// What takes octets. It counts its faults, and the count never falls.
pub trait Sink {
    /// The octets that it has taken, where it says which.
    ghost taken: { Self → Option (List ℕ) };

    /// How often a write has failed, or has taken nothing of a piece.
    ghost faults: { Self → ℕ };

    /// The count of faults stands at its last value, so that it can't rise.
    ghost is_last: { Self → Type 0 };

    /// Takes octets from the start of `piece`, and returns how many it took. `Ok(0)` for a piece that isn't empty, and
    /// `Failed`, come only where the count of faults rose, and take nothing.
    fn write(&mut self, piece: &[u8]) -> Result<usize, Failed>
        ensures bound { WritesAtMost result piece.now }
        ensures taken { taken self.new ≡ append_known (taken self.old) (moved result piece.now) }
        ensures cause { HasWriteCause (faults self.old) (faults self.new) (is_last self.new) result piece.now };
}

/// Writes the whole piece. `Failed` comes only where the count of faults rose, and then a prefix of the piece was
/// written.
#[tactic(auto, using(crate::proofs::Known::put_steps))]
pub fn put_all<O: Sink>(out: &mut O, piece: &[u8]) -> Result<(), Failed>
    ensures ok { OnOk result (O.taken out.new ≡ append_known (O.taken out.old) piece.now) }
    ensures err { OnErr result ((count : ℕ) × (count ≤ length piece.now)
        × (O.taken out.new ≡ append_known (O.taken out.old) (take count piece.now))) }
    ensures cause { HasCause (O.faults out.old) (O.faults out.new) (O.is_last out.new) result }
{
    let mut done = 0;
    while done < piece.len() {
        match out.write(&piece[done..]) {
            Ok(0) => return Err(Failed),
            Ok(count) => done += count,
            Err(Failed) => return Err(Failed),
        }
    }
    Ok(())
}
