//! Lines over readers in memory, with buffers of few bytes, and over one that breaks.
use gate_lines::{Found, LaneFault, Sink, Source, has_ended, next_line, next_line_or_send};
use std::io;
use std::io::{BufReader, BufWriter, ErrorKind, Read};
use std::process::Abort;
use std::test::Fail;

/// A reader that is interrupted once its bytes are out.
#[derive(Drop)]
struct Interrupted<'a>(&'a [u8]);

impl Read for Interrupted<'_> {
    fn read(&mut self, buf: &mut [u8]) -> io::Result<usize> {
        if self.0.is_empty() {
            return Err(io::Error::from(ErrorKind::Interrupted));
        }
        self.0.read(buf)
    }
}

const TEXT: &[u8] = b"first\r\n\nlonger than the buffer\nrest";

fn assert_next<R: Source>(
    rt: &impl Abort,
    reader: &mut R,
    line: &mut Vec<u8>,
    found: Found,
    text: &str,
) -> Result<(), LaneFault> {
    let next = next_line(reader, line)?;
    assert!(rt; next == found, "{text}");
    assert_eq!(rt; line.as_slice(), text.as_bytes());
    Ok(())
}

fn assert_lines<R: Source>(
    rt: &impl Abort,
    reader: &mut R,
    line: &mut Vec<u8>,
) -> Result<(), LaneFault> {
    for text in ["first\r", "", "longer than the buffer"] {
        assert_next(rt, reader, line, Found::Whole, text)?;
    }
    assert_next(rt, reader, line, Found::Rest, "rest")?;
    let ended = has_ended(reader, line)?;
    assert!(rt; ended);
    Ok(())
}

#[test]
fn lines_in_parts(rt: HostRuntime) -> Result<(), Fail> {
    let mut buffered = BufReader::with_capacity(rt.alloc(), 4, TEXT)?;
    let mut line = Vec::new(rt.alloc());
    let read = assert_lines(&rt, &mut buffered, &mut line);
    drop(line);
    drop(buffered);
    Ok(read?)
}

#[test]
fn a_buffer_without_room(rt: HostRuntime) -> Result<(), Fail> {
    let mut reader = BufReader::with_capacity(rt.alloc(), 0, TEXT)?;
    let mut line = Vec::new(rt.alloc());
    assert!(rt; next_line(&mut reader, &mut line) == Err(LaneFault::Read));
    assert!(rt; has_ended(&mut reader, &mut line) == Err(LaneFault::Read));
    Ok(())
}

/// A reply is sent before a reader is asked for more, and held back while a whole line waits in its buffer.
#[test]
fn lines_that_wait(rt: HostRuntime) -> Result<(), Fail> {
    let mut reader = BufReader::new(rt.alloc(), Interrupted(b"one\ntwo\nth"))?;
    let mut writer = BufWriter::new(rt.alloc(), Vec::new(rt.alloc()))?;
    let mut line = Vec::new(rt.alloc());
    let wanted = [
        (Ok(Found::Whole), 0),
        (Ok(Found::Whole), 1),
        (Err(LaneFault::Read), 0),
    ];
    for (found, held) in wanted {
        writer.write_text(b"a")?;
        assert!(rt; next_line_or_send(&mut reader, &mut writer, &mut line) == found);
        assert_eq!(rt; writer.buffer().len(), held);
    }
    assert_eq!(rt; std::str::from_utf8(line.as_slice())?, "th");
    Ok(())
}
