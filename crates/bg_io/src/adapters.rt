ghost use Rattle.std.specs.Prelude.{◌≡◌, ◌<◌, ◌≤◌, if◌then◌else◌, ℕ, [], length, Ok, IfOk, OnErr, None, is_err};
ghost use Rattle.std.specs.Io.{ReadsAtMost};
ghost use Rattle.std.specs.Io.KnownBytes.{ReadConsumes, WriteAppends};
ghost use Rattle.bg_io.specs.Ends.{HasCause, HasRoom, RoomFalls, TakesSome, one_more};

use crate::ends::{Failed, Sink, Source};
use std::io::{Read, Write};
use std::marker::Model;

/// A reader of std as a source that counts the reads that fail.
#[derive(Drop)]
pub struct StdSource<R> {
    reader: R,
    faults: u64,
}

impl<R> Model for StdSource<R> {
    ghost use Rattle.bg_io.specs.Ends.{Counted};

    ghost Value = { Counted R };

    ghost view = { λ s. record { inner = s.reader; faults = s.faults } };
}

impl<R: Read> StdSource<R> {
    pub fn new(reader: R) -> StdSource<R>
        ensures { result ≡ record { inner = reader; faults = 0 } }
    {
        StdSource { reader, faults: 0 }
    }
}

impl<R: Read> Source for StdSource<R> {
    ghost left = { λ _. None };

    ghost faults = { λ s. s.faults };

    ghost calls = { λ _. None };

    fn read(&mut self, piece: &mut [u8]) -> Result<usize, Failed>
        ensures bound { ReadsAtMost result piece.new }
        ensures bytes { ReadConsumes (R.remaining self.old.inner) (R.remaining self.new.inner) result piece.new }
        ensures cause { HasCause self.old.faults self.new.faults result }
        ensures empty { piece.old ≡ [] → (result ≡ Ok 0) × (self.new ≡ self.old) }
        ensures counted { self.new.faults ≡ (if is_err result then one_more self.old.faults else self.old.faults) }
    {
        if piece.is_empty() {
            return Ok(0);
        }
        match self.reader.read(piece) {
            Ok(count) => Ok(count),
            Err(_) => {
                self.faults = self.faults.saturating_add(1);
                Err(Failed)
            }
        }
    }
}

/// A writer of std as a sink that counts the writes that fail, one that takes nothing among them.
#[derive(Drop)]
pub struct StdSink<W> {
    writer: W,
    faults: u64,
}

impl<W> Model for StdSink<W> {
    ghost use Rattle.bg_io.specs.Ends.{Counted};

    ghost Value = { Counted W };

    ghost view = { λ s. record { inner = s.writer; faults = s.faults } };
}

impl<W: Write> StdSink<W> {
    pub fn new(writer: W) -> StdSink<W>
        ensures { result ≡ record { inner = writer; faults = 0 } }
    {
        StdSink { writer, faults: 0 }
    }
}

impl<W: Write> Sink for StdSink<W> {
    ghost held = { λ _. None };

    ghost room = { λ _. None };

    ghost faults = { λ s. s.faults };

    ghost calls = { λ _. None };

    fn write(&mut self, piece: &[u8]) -> Result<usize, Failed>
        ensures bound { TakesSome result piece.now }
        ensures bytes { WriteAppends (W.contents self.old.inner) (W.contents self.new.inner) result piece.now }
        ensures cause { HasCause self.old.faults self.new.faults result }
        ensures empty { piece.now ≡ [] → (result ≡ Ok 0) × (self.new ≡ self.old) }
        ensures counted { self.new.faults ≡ (if is_err result then one_more self.old.faults else self.old.faults) }
    {
        if piece.is_empty() {
            return Ok(0);
        }
        match self.writer.write(piece) {
            Ok(count) if count > 0 => Ok(count),
            _ => {
                self.faults = self.faults.saturating_add(1);
                Err(Failed)
            }
        }
    }
}

#[cfg(test)]
mod tests {
    use super::*;
    use std::collections::VecDeque;
    use std::io;
    use std::io::ErrorKind;
    use std::test::Fail;

    // A stream that takes or gives one byte a call, fails at the second, and takes nothing at the third.
    #[derive(Drop)]
    struct Flaky {
        calls: u32,
    }

    impl Flaky {
        fn call(&mut self) -> io::Result<usize>
            ensures { IfOk result (λ n. n ≤ 1) }
        {
            self.calls = self.calls.saturating_add(1);
            match self.calls {
                2 => Err(io::Error::from(ErrorKind::Other)),
                3 => Ok(0),
                _ => Ok(1),
            }
        }
    }

    impl Read for Flaky {
        fn read(&mut self, piece: &mut [u8]) -> io::Result<usize> {
            Ok(self.call()?.min(piece.len()))
        }
    }

    impl Write for Flaky {
        fn write(&mut self, piece: &[u8]) -> io::Result<usize> {
            Ok(self.call()?.min(piece.len()))
        }

        fn flush(&mut self) -> io::Result<()> {
            Ok(())
        }
    }

    #[test]
    fn streams_of_std_pass_their_bytes(rt: HostRuntime) -> Result<(), Fail> {
        let text: &[u8] = b"abc";
        let mut source = StdSource::new(text);
        let mut piece = [0; 2];
        for (count, bytes) in [(2, b"ab"), (1, b"cb"), (0, b"cb")] {
            assert_eq!(rt;
                source.read(&mut piece),
                Ok(count),
                "{count} bytes are given"
            );
            assert_eq!(rt; &piece, bytes, "{count} bytes were given");
        }
        let mut sink = StdSink::new(VecDeque::new(rt.alloc()));
        assert_eq!(rt; sink.write(text), Ok(3));
        assert_eq!(rt; sink.writer.into_iter().eq([b'a', b'b', b'c']), true);
        assert_eq!(rt; sink.faults, 0);
        Ok(())
    }

    #[test]
    fn failed_calls_are_counted(rt: HostRuntime) {
        let mut source = StdSource::new(Flaky { calls: 0 });
        let mut sink = StdSink::new(Flaky { calls: 0 });
        // A source at its end is not at fault, a sink that takes nothing is.
        for (read, read_faults, wrote, write_faults) in [
            (Ok(1), 0, Ok(1), 0),
            (Err(Failed), 1, Err(Failed), 1),
            (Ok(0), 1, Err(Failed), 2),
            (Ok(1), 1, Ok(1), 2),
        ] {
            assert_eq!(rt; source.read(&mut [0; 2]), read);
            assert_eq!(rt; source.faults, read_faults);
            assert_eq!(rt; sink.write(b"ab"), wrote);
            assert_eq!(rt; sink.faults, write_faults);
        }
        assert_eq!(rt; source.read(&mut []), Ok(0));
        assert_eq!(rt; sink.write(b""), Ok(0));
        assert_eq!(rt;
            (source.reader.calls, sink.writer.calls),
            (4, 4),
            "an empty piece is passed to neither"
        );
    }
}
