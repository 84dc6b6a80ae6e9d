//! Adapters to real files and streams.
use io_edge::{Failed, FileShelf, Shelf, Sink, StreamSink};
use std::io::Write;
use std::test::Fail;
use std::{fs, io};

#[test]
fn a_real_file_is_read_to_its_end(rt: HostRuntime) -> Result<(), Fail> {
    fs::write(&rt, "shelf.tmp", "hello")?;
    let mut shelf = FileShelf::new(&rt);
    let mut buffer = [0u8; 8];
    assert!(rt; shelf.begin("no such file").is_err());
    assert!(rt; shelf.begin("shelf.tmp").is_ok());
    let count = shelf.pull(&mut buffer).unwrap_or(0);
    assert_eq!(rt; count, 5);
    assert_eq!(rt; &buffer[..5], b"hello".as_slice());
    assert_eq!(rt; shelf.pull(&mut buffer).unwrap_or(9), 0);
    fs::remove_file(&rt, "shelf.tmp")?;
    Ok(())
}

/// Takes at most two bytes at a time, and six in all.
#[derive(Drop)]
struct Narrow<'a> {
    bytes: &'a mut Vec<u8>,
}

impl<'a> Write for Narrow<'a> {
    fn write(&mut self, buf: &[u8]) -> io::Result<usize> {
        let count = buf
            .len()
            .min(2)
            .min(6usize.saturating_sub(self.bytes.len()));
        self.bytes.extend_from_slice(&buf[..count])?;
        Ok(count)
    }

    fn flush(&mut self) -> io::Result<()> {
        Ok(())
    }
}

#[test]
fn a_stream_is_given_every_byte_or_fails(rt: HostRuntime) {
    let mut bytes: Vec<u8> = Vec::new(rt.alloc());
    let put = StreamSink::new(Narrow { bytes: &mut bytes }).put(b"hello");
    assert!(rt; put.is_ok());
    assert_eq!(rt; bytes.as_slice(), b"hello".as_slice());
    let put = StreamSink::new(Narrow { bytes: &mut bytes }).put(b"xyz");
    assert!(rt; put.is_err());
    assert_eq!(rt; bytes.as_slice(), b"hellox".as_slice());
}
