use ls_io::{
    LIMIT, MemSink, MemSource, ReadFault, Sink, Source, StdSink, StdSource, read_all, write_all,
};
use std::io;
use std::io::Write;
use std::test::Fail;

/// A writer that takes nothing, and reports no error.
#[derive(Drop)]
struct TakesNothing;

impl Write for TakesNothing {
    fn write(&mut self, _bytes: &[u8]) -> io::Result<usize> {
        Ok(0)
    }

    fn flush(&mut self) -> io::Result<()> {
        Ok(())
    }
}

#[test]
fn memory_is_read_and_written_in_pieces(rt: HostRuntime) -> Result<(), Fail> {
    let text = b"hello".as_slice();
    let other = b"worlds".as_slice();
    for piece in [1, 2, 5, 9] {
        let mut source = MemSource::new(rt.alloc(), text, piece, &[])?;
        let mut buffer = [b'.'; 3];
        let count = source.read(&mut buffer)?;
        assert_eq!(rt; count, piece.min(3), "a piece of {piece}");
        assert_eq!(rt; source.left(), &text[count..], "a piece of {piece}");
        let rest = read_all(rt.alloc(), &mut source)?;
        assert_eq!(rt; rest.as_slice(), &text[count..], "a piece of {piece}");
        assert_eq!(rt; source.read(&mut buffer)?, 0, "a piece of {piece}");

        let mut sink = MemSink::new(rt.alloc(), 7, piece, &[])?;
        assert_eq!(rt; sink.write(text)?, piece.min(5), "a piece of {piece}");
        let room = 7 - piece.min(5);
        let more = &other[..room];
        write_all(&mut sink, more)?;
        assert_eq!(rt; sink.bytes().len(), 7, "a piece of {piece}");
        assert_eq!(rt; &sink.bytes()[7 - room..], more, "a piece of {piece}");
        assert_eq!(rt; source.faults() + sink.faults(), 0, "a piece of {piece}");
    }
    Ok(())
}

#[test]
fn a_read_fails_in_mid_stream(rt: HostRuntime) -> Result<(), Fail> {
    let mut source = MemSource::new(rt.alloc(), b"hello", 2, &[2, 5])?;
    assert!(rt; matches!(read_all(rt.alloc(), &mut source), Err(ReadFault::Fault)));
    assert_eq!(rt; source.faults(), 1);
    assert_eq!(rt; source.left(), b"llo".as_slice());
    assert!(rt; matches!(read_all(rt.alloc(), &mut source), Err(ReadFault::Fault)));
    assert_eq!(rt; source.faults(), 2);
    assert_eq!(rt; source.left(), b"".as_slice());
    assert_eq!(rt; read_all(rt.alloc(), &mut source)?.len(), 0);
    Ok(())
}

#[test]
fn a_write_fails_in_mid_stream_or_for_want_of_room(rt: HostRuntime) -> Result<(), Fail> {
    let mut sink = MemSink::new(rt.alloc(), 7, 2, &[3])?;
    assert!(rt; write_all(&mut sink, b"hello").is_err());
    assert_eq!(rt; sink.bytes(), b"hell".as_slice());
    assert_eq!(rt; sink.faults(), 1);
    write_all(&mut sink, b"o")?;
    assert_eq!(rt; sink.bytes(), b"hello".as_slice());
    assert!(rt; write_all(&mut sink, b", you").is_err());
    assert_eq!(rt; sink.bytes(), b"hello, ".as_slice());
    assert_eq!(rt; sink.faults(), 2);
    Ok(())
}

#[test]
fn the_standard_adapters_pass_the_bytes_on(rt: HostRuntime) -> Result<(), Fail> {
    let mut source = StdSource::new(b"hello".as_slice());
    let bytes = read_all(rt.alloc(), &mut source)?;
    assert_eq!(rt; bytes.as_slice(), b"hello".as_slice());
    assert_eq!(rt; source.faults(), 0);

    let mut written = Vec::new(rt.alloc());
    let mut sink = StdSink::new(&mut written);
    write_all(&mut sink, &bytes)?;
    write_all(&mut sink, b"!")?;
    assert_eq!(rt; sink.faults(), 0);
    drop(sink);
    assert_eq!(rt; written.as_slice(), b"hello!".as_slice());
    Ok(())
}

#[test]
fn a_write_that_takes_nothing_is_a_failure(rt: HostRuntime) -> Result<(), Fail> {
    let mut sink = StdSink::new(TakesNothing);
    assert_eq!(rt; sink.write(b"")?, 0);
    assert_eq!(rt; sink.faults(), 0);
    assert!(rt; write_all(&mut sink, b"hello").is_err());
    assert_eq!(rt; sink.faults(), 1);
    Ok(())
}

#[test]
fn a_text_may_have_16777216_bytes_and_no_more(rt: HostRuntime) -> Result<(), Fail> {
    assert_eq!(rt; LIMIT, 16_777_216);
    let text = vec![in rt.alloc(); b' '; LIMIT]?;
    let mut source = MemSource::new(rt.alloc(), &text, 65_536, &[])?;
    assert_eq!(rt; read_all(rt.alloc(), &mut source)?.len(), LIMIT);
    let text = vec![in rt.alloc(); b' '; LIMIT + 1]?;
    let mut source = MemSource::new(rt.alloc(), &text, 65_536, &[])?;
    assert!(rt; matches!(read_all(rt.alloc(), &mut source), Err(ReadFault::TooLong)));
    assert_eq!(rt; source.left().len(), 0);
    Ok(())
}
