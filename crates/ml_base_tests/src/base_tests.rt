// Streams, and what no command calls.
use ml_base::{
    IdSet, MemSink, NoMemory, ReadRefusal, Sink, StdSink, StdSource, read_all, write_all,
};
use std::alloc::Global;
use std::io;
use std::io::{ErrorKind, Read, Write};
use std::test::Fail;

// A reader that gives one byte, fails, and is at its end; a writer that takes one byte, takes nothing, fails, and
// takes one byte without flushing it.
#[derive(Drop)]
struct Flaky {
    calls: u8,
}

impl Read for Flaky {
    fn read(&mut self, buf: &mut [u8]) -> io::Result<usize> {
        self.calls = self.calls.saturating_add(1);
        match (self.calls, buf) {
            (1, [first, ..]) => {
                *first = b'x';
                Ok(1)
            }
            (2, _) => Err(io::Error::from(ErrorKind::Other)),
            _ => Ok(0),
        }
    }
}

impl Write for Flaky {
    fn write(&mut self, buf: &[u8]) -> io::Result<usize> {
        self.calls = self.calls.saturating_add(1);
        match self.calls {
            2 => Ok(0),
            3 => Err(io::Error::from(ErrorKind::Other)),
            _ => Ok(buf.len().min(1)),
        }
    }

    fn flush(&mut self) -> io::Result<()> {
        match self.calls {
            4 => Err(io::Error::from(ErrorKind::Other)),
            _ => Ok(()),
        }
    }
}

#[test]
fn a_reader(rt: HostRuntime) -> Result<(), Fail> {
    let mut whole: &[u8] = b"hello";
    let bytes = read_all(rt.alloc(), &mut StdSource::new(&mut whole), 100)?;
    assert!(rt; bytes.as_slice() == b"hello".as_slice());
    Ok(())
}

// What was read before a failure isn't given, and the next read begins behind it.
#[test]
fn a_reader_that_fails(rt: HostRuntime) -> Result<(), Fail> {
    let mut source = StdSource::new(Flaky { calls: 0 });
    let refusal = read_all(rt.alloc(), &mut source, 100).err();
    assert_eq!(rt; refusal, Some(ReadRefusal::ReadFault));
    assert!(rt; read_all(rt.alloc(), &mut source, 100)?.is_empty());
    Ok(())
}

// A reader that gives a byte, its end, and then more, as a terminal does.
#[derive(Drop)]
struct Resumed {
    calls: u8,
}

impl Read for Resumed {
    fn read(&mut self, buf: &mut [u8]) -> io::Result<usize> {
        self.calls = self.calls.saturating_add(1);
        match (self.calls, buf) {
            (1, [first, ..]) => {
                *first = b'x';
                Ok(1)
            }
            (3, [first, ..]) => {
                *first = b'y';
                Ok(1)
            }
            _ => Ok(0),
        }
    }
}

// Nothing is read behind the end.
#[test]
fn an_end(rt: HostRuntime) -> Result<(), Fail> {
    let mut source = StdSource::new(Resumed { calls: 0 });
    for want in [b"x".as_slice(), b"y".as_slice(), b"".as_slice()] {
        let bytes = read_all(rt.alloc(), &mut source, 100)?;
        assert!(rt; bytes.as_slice() == want);
    }
    Ok(())
}

#[test]
fn a_writer(rt: HostRuntime) -> Result<(), Fail> {
    let mut taken = Vec::new(rt.alloc());
    write_all(&mut StdSink::new(&mut taken), b"hello")?;
    assert!(rt; taken.as_slice() == b"hello".as_slice());
    Ok(())
}

// Does each of so many writes fail?
fn fail_to_write(sink: &mut StdSink<Flaky>, count: u32) -> bool {
    for _ in 0..count {
        if sink.write(b"hi").is_ok() {
            return false;
        }
    }
    true
}

#[test]
fn a_writer_that_fails(rt: HostRuntime) {
    let mut sink = StdSink::new(Flaky { calls: 0 });
    assert_eq!(rt; sink.write(b"hi"), Ok(1));
    assert!(rt; fail_to_write(&mut sink, 3));
    assert_eq!(rt; write_all(&mut sink, b"hi"), Ok(()));
}

// No vector has so much room.
#[test]
fn too_much_room(rt: HostRuntime) {
    let sink = MemSink::new(rt.alloc(), 1, Vec::new(rt.alloc()), u64::MAX);
    assert_eq!(rt; sink.err(), Some(NoMemory));
}

fn set_of(alloc: Global, numbers: &[u32]) -> Result<IdSet, NoMemory> {
    let mut set = IdSet::new(alloc);
    for number in numbers {
        set.insert(*number)?;
    }
    Ok(set)
}

// Has the union of the set with these numbers those?
fn is_union(alloc: Global, set: &IdSet, numbers: &[u32], wanted: &[u32]) -> Result<bool, NoMemory> {
    let other = set_of(alloc, numbers)?;
    Ok(set.union(&other)?.values() == wanted)
}

#[test]
fn unions_of_sets(rt: HostRuntime) -> Result<(), Fail> {
    let set = set_of(rt.alloc(), &[3, 1])?;
    assert!(rt; is_union(rt.alloc(), &set, &[2], &[1, 2, 3])?);
    assert!(rt; is_union(rt.alloc(), &set, &[1, 3], &[1, 3])?);
    Ok(())
}
