//! The system's files, and a writer that takes little at a time.

use and_outside::{
    Failed, Files, Gate, OpenGate, ReadAnswer, RealFiles, RealSink, Sink, write_all,
};
use std::io;
use std::io::Write;
use std::test::Fail;

// Takes a byte at a time, and nothing once it has ten.
#[derive(Drop)]
struct Narrow {
    bytes: [u8; 10],
    count: usize,
}

impl Write for &mut Narrow {
    fn write(&mut self, buf: &[u8]) -> io::Result<usize> {
        if buf.is_empty() || self.count >= 10 {
            return Ok(0);
        }
        self.bytes[self.count] = buf[0];
        self.count += 1;
        Ok(1)
    }

    fn flush(&mut self) -> io::Result<()> {
        Ok(())
    }
}

// The content is longer than one read of the system takes.
#[test]
fn real_files(rt: HostRuntime) -> Result<(), Fail> {
    let alloc = rt.alloc();
    let content = vec![in alloc; 7u8; 70000]?;
    let mut files = RealFiles::make(&rt);
    assert_eq!(rt; files.write("content", content.as_slice()), Ok(()));
    assert_eq!(rt;
        files.read(alloc, "content", 70000)?.as_slice(),
        content.as_slice()
    );
    assert_eq!(rt;
        files.read(alloc, "content", 69999),
        Err(ReadAnswer::TooLong)
    );
    assert_eq!(rt; files.write("content", b"new"), Ok(()));
    assert_eq!(rt;
        files.read(alloc, "content", 70000)?.as_slice(),
        b"new".as_slice()
    );
    assert_eq!(rt; files.read(alloc, "missing", 1), Err(ReadAnswer::Failed));
    assert_eq!(rt; files.write("missing/name", b"x"), Err(Failed));
    Ok(())
}

#[test]
fn real_sink(rt: HostRuntime) {
    let mut narrow = Narrow {
        bytes: [0; 10],
        count: 0,
    };
    let mut sink = RealSink::make(&mut narrow);
    assert_eq!(rt; sink.put(b"abcdefg"), Ok(()));
    assert_eq!(rt; sink.put(b"hijk"), Err(Failed), "only three bytes are left");
    drop(sink);
    OpenGate.at(0, 0);
    assert_eq!(rt; narrow.bytes, *b"abcdefghij");
}

#[test]
fn all_is_written(rt: HostRuntime) {
    let mut narrow = Narrow {
        bytes: [0; 10],
        count: 0,
    };
    let mut writer = &mut narrow;
    assert!(rt; write_all(&mut writer, b"abcdefghij"), "a byte at a time");
    assert!(rt; write_all(&mut writer, b""), "nothing is left to take");
    assert!(rt; !write_all(&mut writer, b"k"), "nothing more is taken");
    assert_eq!(rt; narrow.bytes, *b"abcdefghij");
}
