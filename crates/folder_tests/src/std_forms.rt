// Sources and sinks over readers and writers of std, of which no contract tells the bytes.
use outside::{Failed, Sink, read_full, write_all};
use outside_system::{ReaderSource, WriterSink};
use std::io;
use std::io::{ErrorKind, Read, Write};

/// A reader that a signal interrupts at first, and that then gives `x` at each read.
#[derive(Drop)]
struct Interrupted {
    times: u8,
}

impl Read for Interrupted {
    fn read(&mut self, buffer: &mut [u8]) -> io::Result<usize> {
        if self.times > 0 {
            self.times -= 1;
            return Err(ErrorKind::Interrupted.into());
        }
        match buffer.first_mut() {
            Some(first) => {
                *first = b'x';
                Ok(1)
            }
            None => Ok(0),
        }
    }
}

#[test]
fn an_interrupted_read_is_tried_again(rt: HostRuntime) {
    let mut source = ReaderSource::new(Interrupted { times: 3 });
    let mut buffer = [0; 2];
    let count = read_full(&mut source, &mut buffer);
    assert!(rt; count == Ok(2) && buffer == [b'x', b'x']);
}

/// A writer that takes so many bytes in all, one a call.
#[derive(Drop)]
struct Short {
    room: usize,
}

impl Write for Short {
    fn write(&mut self, piece: &[u8]) -> io::Result<usize> {
        let count = self.room.min(piece.len()).min(1);
        self.room -= count;
        Ok(count)
    }

    fn flush(&mut self) -> io::Result<()> {
        Ok(())
    }
}

#[test]
fn a_write_that_takes_nothing_fails(rt: HostRuntime) {
    let mut sink = WriterSink::new(Short { room: 3 });
    let first = sink.write(b"abc");
    let whole = write_all(&mut sink, b"bc");
    let more = write_all(&mut sink, b"d");
    assert!(rt; first == Ok(1) && whole == Ok(()) && more == Err(Failed));
}

#[test]
fn a_reader_gives_every_byte(rt: HostRuntime) {
    let mut source = ReaderSource::new(b"abc".as_slice());
    let mut buffer = [0; 5];
    let count = read_full(&mut source, &mut buffer);
    assert!(rt; count == Ok(3) && buffer == [b'a', b'b', b'c', 0, 0]);
}
