//! Streams of the system as ends of the program: bytes go through as they are, a call that is interrupted is made again, and what fails, or takes
//! nothing, has failed.
use pareas_core::{ByteIn, ByteOut, Failed};
use std::io::{self, Read, Write};
use std::test::*;
use stream_ends::{Reader, Writer};

/// A stream that fails to read, and takes nothing.
#[derive(Drop)]
struct Broken;

impl Read for Broken {
    fn read(&mut self, _buf: &mut [u8]) -> io::Result<usize> {
        Err(io::Error::from(io::ErrorKind::Other))
    }
}

impl Write for Broken {
    fn write(&mut self, _buf: &[u8]) -> io::Result<usize> {
        Ok(0)
    }

    fn flush(&mut self) -> io::Result<()> {
        Ok(())
    }
}

/// A stream whose calls are interrupted some times before one goes through.
#[derive(Drop)]
struct Interrupted<S> {
    stream: S,
    times: u32,
}

impl<S> Interrupted<S> {
    /// Whether this call is interrupted.
    fn interrupts(&mut self) -> bool {
        let interrupts = self.times > 0;
        self.times = self.times.saturating_sub(1);
        interrupts
    }
}

impl<S: Read> Read for Interrupted<S> {
    fn read(&mut self, buf: &mut [u8]) -> io::Result<usize> {
        if self.interrupts() {
            return Err(io::Error::from(io::ErrorKind::Interrupted));
        }
        self.stream.read(buf)
    }
}

impl<S: Write> Write for Interrupted<S> {
    fn write(&mut self, buf: &[u8]) -> io::Result<usize> {
        if self.interrupts() {
            return Err(io::Error::from(io::ErrorKind::Interrupted));
        }
        self.stream.write(buf)
    }

    fn flush(&mut self) -> io::Result<()> {
        self.stream.flush()
    }
}

#[test]
fn streams_are_handed_through(rt: HostRuntime) {
    let mut buffer = [0; 4];
    let bytes: &[u8] = b"abc";
    let mut sound = Reader::new(bytes);
    assert_eq!(rt; sound.read(&mut buffer), Ok(3));
    assert_eq!(rt; buffer, *b"abc\0");
    assert_eq!(rt; sound.read(&mut buffer), Ok(0));
    let mut broken = Reader::new(Broken);
    assert_eq!(rt; broken.read(&mut buffer), Err(Failed));
    let mut full = Writer::new(Broken);
    assert_eq!(rt; full.write(b"abc"), Err(Failed));
    assert_eq!(rt; full.write(b""), Ok(0));
}

#[test]
fn interrupted_reads_are_made_again(rt: HostRuntime) {
    let mut buffer = [0; 4];
    let stream: &[u8] = b"abc";
    let mut input = Reader::new(Interrupted { stream, times: 3 });
    assert_eq!(rt; input.read(&mut buffer), Ok(3));
    assert_eq!(rt; buffer, *b"abc\0");
    let mut broken = Reader::new(Interrupted {
        stream: Broken,
        times: 3,
    });
    assert_eq!(rt; broken.read(&mut buffer), Err(Failed));
}

#[test]
fn interrupted_writes_are_made_again(rt: HostRuntime) {
    let stream: Vec<u8> = Vec::new(rt.alloc());
    let mut out = Writer::new(Interrupted { stream, times: 3 });
    assert_eq!(rt; out.write(b"abc"), Ok(3));
    let mut full = Writer::new(Interrupted {
        stream: Broken,
        times: 3,
    });
    assert_eq!(rt; full.write(b"abc"), Err(Failed));
}
