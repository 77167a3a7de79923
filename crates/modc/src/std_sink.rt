ghost use Rattle.std.specs.Prelude.{◌≡◌, None};

use cm_outside::{Sink, SinkFault};
use std::io::{ErrorKind, Write};

/// A sink over a writer of the standard library. It tells nothing of what the writer took.
#[derive(Drop)]
pub struct StdSink<W> {
    writer: W,
    /// How many writes failed; it stays at its last value.
    faults: u64,
}

impl<W> StdSink<W> {
    pub fn new(writer: W) -> StdSink<W>
        ensures { result ≡ record { writer = writer; faults = 0 } }
    {
        StdSink { writer, faults: 0 }
    }
}

impl<W: Write> Sink for StdSink<W> {
    ghost taken = { λ _. None };

    ghost faults = { λ s. s.faults };

    fn write(&mut self, bytes: &[u8]) -> Result<usize, SinkFault> {
        match self.writer.write(bytes) {
            Ok(taken) if taken > 0 || bytes.is_empty() => Ok(taken),
            Err(error) if error.kind() == ErrorKind::OutOfMemory => Err(SinkFault::NoMemory),
            _ => {
                self.faults = self.faults.saturating_add(1);
                Err(SinkFault::Failed)
            }
        }
    }
}

#[cfg(test)]
mod tests {
    use super::*;
    use std::io;
    use std::test::Fail;

    /// A writer with room for so many bytes.
    #[derive(Drop)]
    struct Room(usize);

    impl Write for Room {
        fn write(&mut self, bytes: &[u8]) -> io::Result<usize> {
            let taken = bytes.len().min(self.0);
            self.0 -= taken;
            Ok(taken)
        }

        fn flush(&mut self) -> io::Result<()> {
            Ok(())
        }
    }

    #[test]
    fn takes_bytes_until_the_writer_is_full(rt: HostRuntime) -> Result<(), Fail> {
        let mut sink = StdSink::new(Room(4));
        assert_eq!(rt; sink.write(b"abc")?, 3);
        assert_eq!(rt; sink.write(b"de")?, 1);
        assert_eq!(rt; sink.write(b"")?, 0);
        assert_eq!(rt; sink.faults, 0);
        assert!(rt; matches!(sink.write(b"e"), Err(SinkFault::Failed)));
        assert_eq!(rt; sink.faults, 1);
        Ok(())
    }
}
