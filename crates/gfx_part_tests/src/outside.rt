// What the adapters of std do, and that a stream in memory goes on after a fault.
use gfx_io::{Failed, MemSink, MemSource, Sink, Source, StdSink, StdSource, fill, write_whole};
use std::alloc::Global;
use std::io::{self, ErrorKind, Read, Write};
use std::test::Fail;

/// A reader whose second call fails.
#[derive(Drop)]
struct Interrupted {
    calls: u8,
}

impl Read for Interrupted {
    fn read(&mut self, buf: &mut [u8]) -> io::Result<usize> {
        self.calls = self.calls.saturating_add(1);
        if self.calls == 2 {
            return Err(ErrorKind::Interrupted.into());
        }
        match buf.first_mut() {
            Some(first) => {
                *first = self.calls;
                Ok(1)
            }
            None => Ok(0),
        }
    }
}

/// A writer that takes two bytes a call, and from the third call on nothing.
#[derive(Drop)]
struct Full {
    calls: u8,
}

impl Write for Full {
    fn write(&mut self, buf: &[u8]) -> io::Result<usize> {
        self.calls = self.calls.saturating_add(1);
        Ok(if self.calls > 2 { 0 } else { buf.len().min(2) })
    }

    fn flush(&mut self) -> io::Result<()> {
        Ok(())
    }
}

#[test]
fn a_reader_of_std_hands_on_its_bytes_and_each_of_its_faults(rt: HostRuntime) {
    let mut source = StdSource::new(Interrupted { calls: 0 });
    let mut buffer = [0; 4];
    assert_eq!(rt; source.read(&mut buffer), Ok(1));
    assert_eq!(rt; source.read(&mut buffer), Err(Failed));
    assert_eq!(rt; source.read(&mut buffer), Ok(1));
    assert_eq!(rt; buffer, [3, 0, 0, 0]);
}

#[test]
fn a_writer_of_std_that_takes_nothing_has_failed(rt: HostRuntime) {
    let mut sink = StdSink::new(Full { calls: 0 });
    assert_eq!(rt; write_whole(&mut sink, b"four"), Ok(()));
    assert_eq!(rt; sink.write(b""), Ok(0));
    assert_eq!(rt; sink.write(b"more"), Err(Failed));
}

#[test]
fn a_source_in_memory_fails_in_mid_stream_and_goes_on(rt: HostRuntime) -> Result<(), Fail> {
    let alloc: Global = rt.alloc();
    let bytes = Vec::from_slice(alloc, b"capture")?;
    let mut source = MemSource::new(bytes, 2, Vec::from_slice(alloc, &[3])?);
    let mut buffer = [0; 7];
    assert_eq!(rt; fill(&mut source, &mut buffer), Err(Failed));
    assert_eq!(rt; source.left(), b"ure".as_slice());
    assert_eq!(rt; fill(&mut source, &mut buffer), Ok(3));
    assert_eq!(rt; &buffer[..3], b"ure".as_slice());
    Ok(())
}

#[test]
fn a_sink_in_memory_fails_in_mid_stream_and_goes_on(rt: HostRuntime) -> Result<(), Fail> {
    let alloc: Global = rt.alloc();
    let mut sink = MemSink::new(alloc, 3, Vec::from_slice(alloc, &[2])?);
    assert_eq!(rt; write_whole(&mut sink, b"capture"), Err(Failed));
    assert_eq!(rt; write_whole(&mut sink, b"!"), Ok(()));
    assert_eq!(rt; sink.into_bytes().as_slice(), b"cap!".as_slice());
    Ok(())
}
