ghost use Rattle.std.specs.Prelude.{◌≡◌, ℕ, ◌<◌, ◌≤◌, List, Option, length};
ghost use Rattle.cyp_io.specs.Outside.{Gives, Takes, ReadCounts, WriteCounts};

/// What one read answered.
#[derive(Clone, Copy, Debug, PartialEq, Eq)]
pub enum Got {
    /// So many bytes, at the front of the buffer.
    Bytes(usize),
    /// No byte is left.
    End,
    /// The read failed, and took no byte.
    Failed,
}

/// What one write answered.
#[derive(Clone, Copy, Debug, PartialEq, Eq)]
pub enum Wrote {
    /// So many bytes, of the front of the piece.
    Took(usize),
    /// The write failed, and took no byte.
    Failed,
}

/// Where bytes come from.
pub trait Source {
    /// The bytes left, where the source tells them.
    ghost left: { Self → Option (List ℕ) };

    /// How many reads failed.
    ghost faults: { Self → ℕ };

    /// Reads the next bytes into the front of the buffer.
    fn read(&mut self, buf: &mut [u8]) -> Got
        requires { 0 < length buf.old }
        ensures bytes { Gives (left self.old) (left self.new) buf.new result }
        ensures cause { ReadCounts (faults self.old) (faults self.new) result };
}

/// Where bytes go to.
pub trait Sink {
    /// The bytes taken, where the sink tells them.
    ghost taken: { Self → Option (List ℕ) };

    /// How many writes failed.
    ghost faults: { Self → ℕ };

    /// Writes the front of the piece, as much of it as one call takes.
    fn write(&mut self, piece: &[u8]) -> Wrote
        requires { 0 < length piece.now }
        ensures bytes { Takes (taken self.old) (taken self.new) piece.now result }
        ensures cause { WriteCounts (faults self.old) (faults self.new) result };
}
