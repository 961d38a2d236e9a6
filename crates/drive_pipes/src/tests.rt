//! Lines over pipes that give a few bytes at a time.
use crate::{Closed, Ends, Pipes, ReceiveError, SendError};

/// Ends that give so many bytes, all of them this one, then a text, three bytes at a time, and take all at once.
#[derive(Drop)]
struct Slow {
    many: usize,
    byte: u8,
    text: &'static [u8],
    taken: usize,
}

impl Ends for Slow {
    ghost use Rattle.std.specs.Prelude.{None};

    ghost came = { λ _. None };

    ghost went = { λ _. None };

    fn read(&mut self, room: &mut [u8]) -> Result<usize, Closed> {
        if self.many > 0 {
            let count = room.len().min(self.many);
            for place in 0..count {
                room[place] = self.byte;
            }
            self.many -= count;
            return Ok(count);
        }
        let count = room.len().min(self.text.len()).min(3);
        if count == 0 {
            return Err(Closed);
        }
        room[..count].copy_from_slice(&self.text[..count]);
        self.text = &self.text[count..];
        Ok(count)
    }

    fn write(&mut self, bytes: &[u8]) -> Result<(), SendError> {
        self.taken = self.taken.saturating_add(bytes.len());
        Ok(())
    }

    fn flush(&mut self) -> Result<(), SendError> {
        Ok(())
    }
}

/// Pipes whose other end gives this text behind so many bytes.
fn pipes(rt: &HostRuntime, many: usize, byte: u8, text: &'static [u8]) -> Pipes<Slow> {
    let ends = Slow {
        many,
        byte,
        text,
        taken: 0,
    };
    Pipes::new(rt.alloc(), ends)
}

/// Whether this is the next line.
fn is_next(pipes: &mut Pipes<Slow>, text: &[u8]) -> bool {
    match pipes.receive() {
        Ok(line) => line.as_slice() == text,
        Err(_) => false,
    }
}

#[test]
fn lines_come_in_order(rt: HostRuntime) {
    let mut pipes = pipes(&rt, 0, 0, b"[]\n[1]\n\n[2");
    pipes.send(b"{\"moment\":1}\n").expect(&rt, "sent");
    assert!(rt; is_next(&mut pipes, b"[]"));
    assert!(rt; is_next(&mut pipes, b"[1]"));
    assert!(rt; is_next(&mut pipes, b""));
    assert!(rt; matches!(pipes.receive(), Err(ReceiveError::Ended)));
}

#[test]
fn the_longest_line_passes(rt: HostRuntime) {
    let mut longest = pipes(&rt, 1_048_576, b' ', b"\n");
    assert_eq!(rt; longest.receive().expect(&rt, "line").len(), 1_048_576);
    let mut longer = pipes(&rt, 1_048_577, b' ', b"\n");
    assert!(rt; matches!(longer.receive(), Err(ReceiveError::Long)));
}
