use outside::{
    Failed, MemSink, MemSource, NoMemory, ReadSource, Sink, Source, SureSink, SureSource, WriteSink,
};
use std::alloc::Global;
use std::io;
use std::io::{Read, Write};
use std::test::Fail;

// Each call goes through one of these functions, which have no clauses: no test needs more of the contracts.

fn read(source: &mut impl Source, buf: &mut [u8; 4]) -> Result<usize, Failed> {
    source.read(buf)
}

fn write(sink: &mut impl Sink) -> Result<usize, Failed> {
    sink.write(b"abc")
}

/// Whether reads have these answers, one after the other.
fn reads_are(source: &mut impl Source, answers: &[Result<usize, Failed>]) -> bool {
    let mut buf = [0; 4];
    for answer in answers {
        if read(source, &mut buf) != *answer {
            return false;
        }
    }
    true
}

/// Whether writes of three bytes have these answers, one after the other.
fn writes_are(sink: &mut impl Sink, answers: &[Result<usize, Failed>]) -> bool {
    for answer in answers {
        if write(sink) != *answer {
            return false;
        }
    }
    true
}

/// Whether a read gives these bytes.
fn gives(source: &mut impl Source, bytes: &[u8]) -> bool {
    let mut buf = [0; 4];
    read(source, &mut buf) == Ok(bytes.len()) && buf.get(..bytes.len()) == Some(bytes)
}

/// A reader whose every other call fails.
#[derive(Drop)]
struct Shaky {
    fails: bool,
}

impl Read for Shaky {
    fn read(&mut self, buf: &mut [u8]) -> io::Result<usize> {
        self.fails = !self.fails;
        if self.fails {
            return Err(io::Error::from(io::ErrorKind::Other));
        }
        match buf.first_mut() {
            Some(byte) => {
                *byte = b'x';
                Ok(1)
            }
            None => Ok(0),
        }
    }
}

#[test]
fn read_source_passes_on_and_tells_failures(rt: HostRuntime) -> Result<(), Fail> {
    let mut source = ReadSource::new(b"abc".as_slice());
    assert!(rt; gives(&mut source, b"abc"));
    assert!(rt; reads_are(&mut source, &[Ok(0)]));
    let mut shaky = ReadSource::new(Shaky { fails: false });
    assert!(rt; reads_are(&mut shaky, &[Err(Failed), Ok(1), Err(Failed)]));
    Ok(())
}

/// Whether a text is written whole.
fn write_all(bytes: &mut Vec<u8>, text: &[u8]) -> bool {
    WriteSink::new(bytes).write_all(text) == Ok(())
}

#[test]
fn write_sink_passes_on_and_tells_failures(rt: HostRuntime) -> Result<(), Fail> {
    let mut bytes = Vec::new(rt.alloc());
    assert!(rt; write_all(&mut bytes, b"abc"));
    assert!(rt; bytes.as_slice() == b"abc".as_slice());
    let mut room = [0; 2];
    let mut full = WriteSink::new(room.as_mut_slice());
    assert!(rt; writes_are(&mut full, &[Ok(2), Err(Failed)]));
    Ok(())
}

/// A writer that takes two bytes in a call and counts its flushes, of which each from the third on
/// fails.
#[derive(Drop)]
struct Flushed {
    flushes: u64,
}

impl Write for Flushed {
    fn write(&mut self, buf: &[u8]) -> io::Result<usize> {
        Ok(buf.len().min(2))
    }

    fn flush(&mut self) -> io::Result<()> {
        self.flushes = self.flushes.saturating_add(1);
        if self.flushes > 2 {
            return Err(io::Error::from(io::ErrorKind::Other));
        }
        Ok(())
    }
}

#[test]
fn write_sink_flushes_after_each_write(rt: HostRuntime) -> Result<(), Fail> {
    let mut writer = Flushed { flushes: 0 };
    let mut sink = WriteSink::new(&mut writer);
    assert!(rt; writes_are(&mut sink, &[Ok(2), Ok(2), Err(Failed)]));
    assert!(rt; writer.flushes == 3);
    Ok(())
}

fn source_fails(alloc: Global) -> Result<bool, NoMemory> {
    let mut source = MemSource::new(alloc, b"abcdef", 2, &[2], Some(5))?;
    let answers = [Ok(2), Err(Failed), Ok(2), Ok(1), Err(Failed), Err(Failed)];
    Ok(reads_are(&mut source, &answers))
}

fn sink_fails(alloc: Global) -> Result<bool, NoMemory> {
    let mut sink = MemSink::new(alloc, 2, &[3], 5)?;
    let answers = [Ok(2), Ok(2), Err(Failed), Ok(1), Err(Failed)];
    Ok(writes_are(&mut sink, &answers) && sink.written() == b"ababa".as_slice())
}

#[test]
fn memory_fails_where_it_was_told_to(rt: HostRuntime) -> Result<(), Fail> {
    assert!(rt; source_fails(rt.alloc())?);
    assert!(rt; sink_fails(rt.alloc())?);
    assert!(rt; reads_are(&mut SureSource::new(b"abc"), &[Ok(3)]));
    assert!(rt; writes_are(&mut SureSink::new(), &[Ok(3)]));
    Ok(())
}
