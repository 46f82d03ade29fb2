ghost use Rattle.std.specs.Prelude.{◌≡◌, ◌<◌, ℕ, List, [], Option, Ok, IfOk, OnErr, length};
ghost use Rattle.std.specs.Io.{ReadsAtMost};
ghost use Rattle.std.specs.Io.KnownBytes.{ReadConsumes, WriteAppends};
ghost use Rattle.bg_io.specs.Ends.{CountsAtMost, HasCause, HasRoom, RoomFalls, TakesSome};

/// A read or a write that failed.
#[derive(Debug, Clone, Copy, PartialEq, Eq)]
pub struct Failed;

/// Bytes that come in pieces.
pub trait Source {
    // The bytes still to come, where the source tells them.
    ghost left: { Self → Option (List ℕ) };

    // How many reads failed. It never falls.
    ghost faults: { Self → ℕ };

    // How many reads of a piece that is not empty were made, where the source tells that.
    ghost calls: { Self → Option ℕ };

    /// Ok has the number of bytes that now stand at the front of the piece. No byte is the end, unless the piece is
    /// empty.
    fn read(&mut self, piece: &mut [u8]) -> Result<usize, Failed>
        ensures bound { ReadsAtMost result piece.new }
        ensures bytes { ReadConsumes (left self.old) (left self.new) result piece.new }
        ensures cause { HasCause (faults self.old) (faults self.new) result }
        ensures calls { CountsAtMost (calls self.old) (calls self.new) 1 }
        ensures empty { piece.old ≡ [] → (result ≡ Ok 0) × (self.new ≡ self.old) };
}

/// What takes bytes in pieces.
pub trait Sink {
    // The bytes taken so far, where the sink tells them.
    ghost held: { Self → Option (List ℕ) };

    // How many more bytes the sink surely takes, where it tells that.
    ghost room: { Self → Option ℕ };

    // How many writes failed. It never falls.
    ghost faults: { Self → ℕ };

    // How many writes of a piece that is not empty were made, where the sink tells that.
    ghost calls: { Self → Option ℕ };

    /// Ok has the number of bytes that were taken from the front of the piece. To take nothing of a piece that is not
    /// empty is to fail.
    fn write(&mut self, piece: &[u8]) -> Result<usize, Failed>
        ensures bound { TakesSome result piece.now }
        ensures bytes { WriteAppends (held self.old) (held self.new) result piece.now }
        ensures room { IfOk result (RoomFalls (room self.old) (room self.new)) }
        ensures taken { OnErr result (0 < length piece.now → HasRoom (room self.old) 1 → ⊥) }
        ensures cause { HasCause (faults self.old) (faults self.new) result }
        ensures calls { CountsAtMost (calls self.old) (calls self.new) 1 }
        ensures empty { piece.now ≡ [] → (result ≡ Ok 0) × (self.new ≡ self.old) };
}
