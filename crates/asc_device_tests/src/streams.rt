ghost use Rattle.std.specs.Prelude.{refl};

use asc_outside::{Failed, Loaded, Sink, Source, Store, StoreFault};
use asc_streams::{FileStore, SteadyRead, SteadyWrite, StreamSink, StreamSource};
use std::fs::File;
use std::io::{ErrorKind, Read, Write};
use std::test::Fail;
use std::{fs, io};

/// A reader that gives three bytes at its first read, and fails at each later one once it has written into the buffer.
#[derive(Drop)]
struct FailsSecond {
    reads: u8,
}

impl Read for FailsSecond {
    fn read(&mut self, buf: &mut [u8]) -> io::Result<usize> {
        let count = buf.len().min(3);
        buf[..count].fill(b'x');
        self.reads = self.reads.saturating_add(1);
        if self.reads == 1 {
            Ok(count)
        } else {
            Err(io::Error::from(ErrorKind::Other))
        }
    }
}

impl SteadyRead for FailsSecond {
    ghost steady = { λ _ _. refl };
}

/// A reader that fails at its first read, and gives a byte at each later one.
#[derive(Drop)]
struct FailsFirst {
    reads: u8,
}

impl Read for FailsFirst {
    fn read(&mut self, buf: &mut [u8]) -> io::Result<usize> {
        self.reads = self.reads.saturating_add(1);
        if self.reads == 1 {
            return Err(io::Error::from(ErrorKind::Interrupted));
        }
        let count = buf.len().min(1);
        buf[..count].fill(b'x');
        Ok(count)
    }
}

impl SteadyRead for FailsFirst {
    ghost steady = { λ _ _. refl };
}

/// What a fake writer does at each call.
#[derive(Clone, Copy)]
enum Way {
    /// It takes one byte.
    One,
    /// It takes all, and fails at the flush.
    FailsAtFlush,
    /// It takes all, and fails at the first flush.
    FailsAtFirstFlush,
    /// It fails.
    Fails,
    /// It is interrupted at the first write, and then takes all.
    FailsFirst,
    /// It takes nothing, and says so.
    Nothing,
}

/// A writer that does what it is told, and counts the bytes that it took, and its calls.
#[derive(Drop)]
struct Fake {
    way: Way,
    count: usize,
    writes: u8,
    flushes: u8,
}

impl Fake {
    fn new(way: Way) -> Fake {
        Fake {
            way,
            count: 0,
            writes: 0,
            flushes: 0,
        }
    }
}

impl Write for Fake {
    fn write(&mut self, buf: &[u8]) -> io::Result<usize> {
        self.writes = self.writes.saturating_add(1);
        let count = match self.way {
            Way::One => buf.len().min(1),
            Way::Nothing => 0,
            Way::Fails => return Err(io::Error::from(ErrorKind::Other)),
            Way::FailsFirst if self.writes == 1 => {
                return Err(io::Error::from(ErrorKind::Interrupted));
            }
            Way::FailsFirst | Way::FailsAtFlush | Way::FailsAtFirstFlush => buf.len(),
        };
        self.count = self.count.saturating_add(count);
        Ok(count)
    }

    fn flush(&mut self) -> io::Result<()> {
        self.flushes = self.flushes.saturating_add(1);
        match self.way {
            Way::FailsAtFlush => Err(io::Error::from(ErrorKind::Other)),
            Way::FailsAtFirstFlush if self.flushes == 1 => {
                Err(io::Error::from(ErrorKind::Interrupted))
            }
            _ => Ok(()),
        }
    }
}

impl SteadyWrite for Fake {
    ghost steady = { λ _ _. refl };
}

#[test]
fn takes_until_the_end(rt: HostRuntime) {
    let mut source = StreamSource::new(b"guest".as_slice());
    let mut into = [0; 3];
    assert_eq!(rt; source.take(&mut into), Ok(3));
    assert_eq!(rt; into, *b"gue");
    assert_eq!(rt; source.take(&mut into), Ok(2));
    assert_eq!(rt; into, *b"ste");
    assert_eq!(rt; source.take(&mut into), Ok(0));
}

#[test]
fn keeps_the_buffer_at_a_failed_read(rt: HostRuntime) {
    let mut source = StreamSource::new(FailsSecond { reads: 0 });
    let mut into = [b'-'; 5];
    assert_eq!(rt; source.take(&mut into), Ok(3));
    assert_eq!(rt; into, *b"xxx--");
    let mut later = [b'-'; 5];
    assert_eq!(rt; source.take(&mut later), Err(Failed));
    assert_eq!(rt; later, *b"-----");
}

/// A read that fails is answered at once, and the next call reads again.
#[test]
fn reads_no_failed_read_again(rt: HostRuntime) {
    let mut reader = FailsFirst { reads: 0 };
    let mut source = StreamSource::new(&mut reader);
    let mut into = [b'-'; 2];
    assert_eq!(rt; source.take(&mut into), Err(Failed));
    assert_eq!(rt; source.take(&mut into), Ok(1));
    assert_eq!(rt; into, *b"x-");
    drop(source);
    assert_eq!(rt; reader.reads, 2);
}

/// One call of `put` writes once, and flushes once where bytes were taken, whatever fails.
#[test]
fn tries_nothing_again(rt: HostRuntime) {
    for (way, want, calls) in [
        (Way::One, Ok(1), (1, 1)),
        (Way::Nothing, Err(Failed), (1, 0)),
        (Way::FailsFirst, Err(Failed), (1, 0)),
        (Way::FailsAtFirstFlush, Err(Failed), (1, 1)),
    ] {
        let mut writer = Fake::new(way);
        let mut sink = StreamSink::new(&mut writer);
        assert_eq!(rt; sink.put(b"ab"), want);
        drop(sink);
        assert_eq!(rt; (writer.writes, writer.flushes), calls);
    }
}

#[test]
fn puts_what_the_writer_takes(rt: HostRuntime) {
    for (way, want) in [
        (Way::One, Ok(1)),
        (Way::FailsAtFlush, Err(Failed)),
        (Way::Nothing, Err(Failed)),
        (Way::Fails, Err(Failed)),
    ] {
        let mut sink = StreamSink::new(Fake::new(way));
        assert_eq!(rt; sink.put(b"ab"), want);
    }
    let mut room = [b'-'; 3];
    {
        let mut sink = StreamSink::new(room.as_mut_slice());
        assert_eq!(rt; sink.put(b"ab"), Ok(2));
    }
    assert_eq!(rt; room, *b"ab-");
}

/// Once bytes were written and not flushed, nothing is written behind them.
#[test]
fn writes_nothing_behind_a_failed_flush(rt: HostRuntime) {
    let mut writer = Fake::new(Way::FailsAtFlush);
    let mut sink = StreamSink::new(&mut writer);
    assert_eq!(rt; sink.put(b"ab"), Err(Failed));
    assert_eq!(rt; sink.put(b"cde"), Err(Failed));
    drop(sink);
    assert_eq!(rt; writer.count, 2);
}

/// A writer that tells what it holds has each piece once.
#[test]
fn puts_each_piece_once(rt: HostRuntime) {
    let mut held = Vec::new(rt.alloc());
    let mut sink = StreamSink::new(&mut held);
    assert_eq!(rt; sink.put(b"ab"), Ok(2));
    assert_eq!(rt; sink.put(b"c"), Ok(1));
    drop(sink);
    assert_eq!(rt; held.as_slice(), b"abc".as_slice());
}

#[test]
fn reads_a_file_up_to_a_bound(rt: HostRuntime) -> Result<(), Fail> {
    let name = "asc_streams_store_test";
    fs::write(&rt, name, b"image")?;
    let mut store = FileStore::new(&rt);
    let mut file = Vec::new(rt.alloc());
    assert_eq!(rt; store.read(name, &mut file, 5), Ok(Loaded::Whole));
    assert_eq!(rt; file.as_slice(), b"image".as_slice());
    assert_eq!(rt; store.read(name, &mut file, 4), Ok(Loaded::Longer));
    assert!(rt; file.is_empty());
    assert_eq!(rt; store.read(name, &mut file, usize::MAX), Ok(Loaded::Whole));
    assert_eq!(rt; file.as_slice(), b"image".as_slice());
    fs::remove_file(&rt, name)?;
    assert_eq!(rt; store.read(name, &mut file, 5), Err(StoreFault::Failed));
    assert!(rt; file.is_empty());
    Ok(())
}

/// What is put to a file is there at once, while the sink is still open.
#[test]
fn moves_bytes_through_a_file(rt: HostRuntime) -> Result<(), Fail> {
    let name = "asc_streams_stream_test";
    let mut sink = StreamSink::new(File::create(&rt, name)?);
    assert_eq!(rt; sink.put(b"guest"), Ok(5));
    let mut source = StreamSource::new(File::open(&rt, name)?);
    let mut into = [b'-'; 8];
    assert_eq!(rt; source.take(&mut into), Ok(5));
    assert_eq!(rt; into, *b"guest---");
    assert_eq!(rt; sink.put(b"bye"), Ok(3));
    assert_eq!(rt; source.take(&mut into), Ok(3));
    assert_eq!(rt; into, *b"byest---");
    assert_eq!(rt; source.take(&mut into), Ok(0));
    fs::remove_file(&rt, name)?;
    Ok(())
}
