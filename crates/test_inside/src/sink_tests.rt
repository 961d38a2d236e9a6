//! The sink over a writer: that its flush is the writer's.
use std::io;
use std::io::Write;
use trace::{Put, Sink, write_head};

/// The header as it is documented for users, with its line feed.
const HEADER: &[u8; 48] = b"moment,member,from,number,what,about,value,lost\n";

/// A writer that takes a few bytes a write, and whose flushes fail where `flush_fails` is set.
#[derive(Drop)]
struct Scripted {
    got: Vec<u8>,
    most: usize,
    flush_fails: bool,
    flushes: u8,
}

fn obedient(rt: &HostRuntime) -> Scripted {
    Scripted {
        got: Vec::new(rt.alloc()),
        most: 5,
        flush_fails: false,
        flushes: 0,
    }
}

impl Write for Scripted {
    fn write(&mut self, buf: &[u8]) -> io::Result<usize> {
        let taken = buf.len().min(self.most);
        self.got.extend_from_slice(&buf[..taken])?;
        Ok(taken)
    }

    fn flush(&mut self) -> io::Result<()> {
        self.flushes = self.flushes.saturating_add(1);
        if self.flush_fails {
            return Err(io::Error::from(io::ErrorKind::BrokenPipe));
        }
        Ok(())
    }
}

/// What is written is taken in pieces, and a flush reaches the writer, whose failure is reported and counted.
#[test]
fn a_writer_is_written_and_flushed(rt: HostRuntime) {
    let mut sink = Put::new(obedient(&rt));
    assert!(rt; write_head(&mut sink).is_ok() && sink.flush().is_ok());
    let mut writer = sink.into_inner();
    assert!(rt; writer.got.as_slice() == HEADER.as_slice() && writer.flushes == 1);
    writer.flush_fails = true;
    let mut sink = Put::new(writer);
    assert!(rt; sink.flush().is_err() && sink.failures() == 1);
}
