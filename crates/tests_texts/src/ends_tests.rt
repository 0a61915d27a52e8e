//! The ends over memory, and the adapters over readers and writers that fail.

use script_reader::outside::{
    BLOCK, Failed, MEM_SINK_ROOM, MemSink, MemSource, Out, ReadFault, ReadSource, Sink, Source,
    SureSink, SureSource, WriteSink, finish, read_all, write_all,
};
use std::alloc::Global;
use std::io;
use std::io::{Error, ErrorKind, Read, Write};
use std::test::Fail;

/// Each read gives one byte, or fails where the byte is a `!`. It counts its reads.
#[derive(Drop)]
struct Bytewise<'a> {
    bytes: &'a [u8],
    reads: u32,
}

impl Read for Bytewise<'_> {
    fn read(&mut self, buf: &mut [u8]) -> io::Result<usize> {
        self.reads = self.reads.saturating_add(1);
        let Some((first, rest)) = self.bytes.split_first() else {
            return Ok(0);
        };
        self.bytes = rest;
        if *first == b'!' {
            return Err(Error::from(ErrorKind::Other));
        }
        if buf.is_empty() {
            return Ok(0);
        }
        buf[0] = *first;
        Ok(1)
    }
}

/// Each write takes at most two bytes, and fails where the first is a `!`. It keeps what it took, and
/// counts its calls.
#[derive(Drop)]
struct Pairwise {
    taken: Vec<u8>,
    writes: u32,
    flushes: u32,
}

impl Write for Pairwise {
    fn write(&mut self, buf: &[u8]) -> io::Result<usize> {
        self.writes = self.writes.saturating_add(1);
        let pair = &buf[..buf.len().min(2)];
        if pair.first() == Some(&b'!') || self.taken.extend_from_slice(pair).is_err() {
            return Err(Error::from(ErrorKind::Other));
        }
        Ok(pair.len())
    }

    fn flush(&mut self) -> io::Result<()> {
        self.flushes = self.flushes.saturating_add(1);
        Ok(())
    }
}

/// Writes nothing: each write answers 0, or fails. It counts its writes.
#[derive(Drop)]
struct Full {
    fails: bool,
    writes: u32,
}

impl Write for Full {
    fn write(&mut self, _buf: &[u8]) -> io::Result<usize> {
        self.writes = self.writes.saturating_add(1);
        if self.fails {
            Err(Error::from(ErrorKind::Other))
        } else {
            Ok(0)
        }
    }

    fn flush(&mut self) -> io::Result<()> {
        Ok(())
    }
}

#[test]
fn a_source_over_a_reader_hands_each_byte_on_once(rt: HostRuntime) -> Result<(), Fail> {
    let bytes = b"ab!c";
    let mut reader = Bytewise { bytes, reads: 0 };
    let mut src = ReadSource::new(&mut reader);
    let mut into = [0u8; 4];
    for (want, front, faults) in [
        (Ok(1), b"a".as_slice(), 0),
        (Ok(1), b"b", 0),
        (Err(Failed), b"", 1),
        (Ok(1), b"c", 1),
        (Ok(0), b"", 1),
    ] {
        let taken = src.take(&mut into);
        assert_eq!(rt; taken, want);
        assert!(rt; into.starts_with(front));
        assert_eq!(rt; src.faults(), faults);
    }
    assert_eq!(rt; reader.reads, 5);

    let mut reader = Bytewise { bytes, reads: 0 };
    let mut src = ReadSource::new(&mut reader);
    assert_eq!(rt;
        read_all(rt.alloc(), &mut src, 9).err(),
        Some(ReadFault::Failed)
    );
    assert_eq!(rt;
        read_all(rt.alloc(), &mut src, 9)?.as_slice(),
        b"c".as_slice()
    );
    assert_eq!(rt; src.faults(), 1);
    assert_eq!(rt; reader.reads, 5);
    Ok(())
}

#[test]
fn a_sink_over_a_writer_hands_each_byte_on_once(rt: HostRuntime) {
    let mut writer = Pairwise {
        taken: Vec::new(rt.alloc()),
        writes: 0,
        flushes: 0,
    };
    let mut sink = WriteSink::new(&mut writer);
    assert_eq!(rt; sink.give(b"abc"), Ok(2));
    assert_eq!(rt; write_all(&mut sink, b"cdefg"), Ok(()));
    assert_eq!(rt; sink.faults(), 0);
    assert_eq!(rt; write_all(&mut sink, b"hi!j"), Err(Failed));
    assert_eq!(rt; sink.faults(), 1);
    assert_eq!(rt; sink.give(b"j"), Ok(1));
    assert_eq!(rt; sink.faults(), 1);
    assert_eq!(rt; writer.taken.as_slice(), b"abcdefghij".as_slice());
    assert_eq!(rt; writer.writes, 7);
    assert_eq!(rt; writer.flushes, 0);
}

#[test]
fn a_sink_over_a_writer_counts_failed_and_empty_writes(rt: HostRuntime) {
    for fails in [true, false] {
        let mut writer = Full { fails, writes: 0 };
        let mut sink = WriteSink::new(&mut writer);
        assert_eq!(rt; sink.give(b"ab"), Err(Failed));
        assert_eq!(rt; sink.faults(), 1);
        assert_eq!(rt; write_all(&mut sink, b"ab"), Err(Failed));
        assert_eq!(rt; sink.faults(), 2);
        assert_eq!(rt; finish(&mut sink, 0, b"ab", 5), 5);
        assert_eq!(rt; sink.faults(), 3);
        assert_eq!(rt; finish(&mut sink, 0, b"", 5), 0);
        assert_eq!(rt; sink.faults(), 3);
        assert_eq!(rt; writer.writes, 3);
    }
}

#[test]
fn the_ends_over_memory_fail_where_it_is_planned(rt: HostRuntime) -> Result<(), Fail> {
    let bytes = b"abcdef".to_vec(rt.alloc())?;
    let mut src = MemSource::new(bytes, [2, 4].to_vec(rt.alloc())?);
    let mut sink = MemSink::new(rt.alloc(), [2, 4].to_vec(rt.alloc())?)?;
    let mut into = [0u8; 2];
    for fails in [false, true, false, true, false] {
        let want = if fails { Err(Failed) } else { Ok(2) };
        assert_eq!(rt; src.take(&mut into), want);
        assert_eq!(rt; sink.give(b"ab"), want);
    }
    assert_eq!(rt; into.as_slice(), b"ef".as_slice());
    assert_eq!(rt; sink.written(), b"ababab".as_slice());
    Ok(())
}

#[test]
fn reads_to_the_end_or_to_the_bound(rt: HostRuntime) -> Result<(), Fail> {
    for (most, want) in [
        (9, b"abcdef".as_slice()),
        (6, b"abcdef"),
        (4, b"abcd"),
        (0, b""),
    ] {
        let mut src = ReadSource::new(Bytewise {
            bytes: b"abcdef",
            reads: 0,
        });
        assert_eq!(rt; read_all(rt.alloc(), &mut src, most)?.as_slice(), want);
        let mut src = SureSource::new(b"abcdef".to_vec(rt.alloc())?);
        assert_eq!(rt; read_all(rt.alloc(), &mut src, most)?.as_slice(), want);
    }
    let mut src = MemSource::new(b"abcdef".to_vec(rt.alloc())?, [2].to_vec(rt.alloc())?);
    assert_eq!(rt;
        read_all(rt.alloc(), &mut src, 9).err(),
        Some(ReadFault::Failed)
    );
    Ok(())
}

#[test]
fn the_sinks_over_memory_keep_what_fits(rt: HostRuntime) -> Result<(), Fail> {
    let mut sure = SureSink::new(rt.alloc(), 5)?;
    assert_eq!(rt; sure.give(b"abc"), Ok(3));
    assert_eq!(rt; sure.give(b"def"), Ok(3));
    assert_eq!(rt; sure.give(b"g"), Ok(1));
    assert_eq!(rt; sure.written(), b"abc".as_slice());

    let mut sink = MemSink::new(rt.alloc(), [2].to_vec(rt.alloc())?)?;
    for (piece, want) in [(b"abc", Ok(3)), (b"def", Err(Failed)), (b"ghi", Ok(3))] {
        assert_eq!(rt; sink.give(piece), want);
    }
    let rest = vec![in rt.alloc(); b'x'; MEM_SINK_ROOM - 6]?;
    assert_eq!(rt; sink.give(&rest), Ok(MEM_SINK_ROOM - 6));
    assert_eq!(rt; sink.give(b"y"), Err(Failed));
    assert_eq!(rt; sink.written().len(), 1_048_576);
    Ok(())
}

// ---- texts in blocks

/// A text of more than six blocks: 4,000 pieces of up to 30 bytes, and one of more than two blocks.
fn pieces(alloc: Global) -> Result<Vec<Vec<u8>>, Fail> {
    let mut pieces = Vec::new(alloc);
    for i in 0..4_000u32 {
        let byte = b'a' + (i % 26) as u8;
        pieces.push(vec![in alloc; byte; (i % 31) as usize]?)?;
    }
    pieces.push(vec![in alloc; b'!'; 2 * BLOCK + 100]?)?;
    pieces.push(b"end\n".to_vec(alloc)?)?;
    Ok(pieces)
}

/// The text whole.
fn whole(alloc: Global, pieces: &[Vec<u8>]) -> Result<Vec<u8>, Fail> {
    let mut text = Vec::new(alloc);
    for piece in pieces {
        text.extend_from_slice(piece)?;
    }
    Ok(text)
}

/// Writes the pieces, and says how that ended.
fn write_pieces<K: Sink>(sink: &mut K, pieces: &[Vec<u8>]) -> Result<(), Failed> {
    let mut out = Out::new(sink);
    for piece in pieces {
        out.write(piece);
    }
    out.finish()
}

#[test]
fn a_text_is_given_in_whole_blocks(rt: HostRuntime) -> Result<(), Fail> {
    let pieces = pieces(rt.alloc())?;
    let text = whole(rt.alloc(), &pieces)?;
    // The call after the most that may be made would fail.
    let one_too_many = u32::try_from(text.len() / BLOCK + 3).unwrap_or(1);
    let mut sink = MemSink::new(rt.alloc(), [one_too_many].to_vec(rt.alloc())?)?;
    assert_eq!(rt; write_pieces(&mut sink, &pieces), Ok(()));
    assert_eq!(rt; sink.written(), text.as_slice());
    Ok(())
}

#[test]
fn after_a_failed_call_nothing_is_given(rt: HostRuntime) -> Result<(), Fail> {
    let pieces = pieces(rt.alloc())?;
    let text = whole(rt.alloc(), &pieces)?;
    for failing in 1..=text.len().div_ceil(BLOCK) {
        let call = u32::try_from(failing).unwrap_or(0);
        let mut sink = MemSink::new(rt.alloc(), [call].to_vec(rt.alloc())?)?;
        assert_eq!(rt; write_pieces(&mut sink, &pieces), Err(Failed));
        assert_eq!(rt; sink.written(), &text[..(failing - 1) * BLOCK]);
    }
    Ok(())
}

#[test]
fn a_text_of_nothing_needs_no_call(rt: HostRuntime) -> Result<(), Fail> {
    let mut sink = MemSink::new(rt.alloc(), [1].to_vec(rt.alloc())?)?;
    assert_eq!(rt; write_pieces(&mut sink, &[]), Ok(()));
    assert_eq!(rt; sink.give(b"a"), Err(Failed));
    Ok(())
}
