ghost use Rattle.std.specs.Prelude.{◌<◌};

use crate::ends::{Failed, Sink, Source};
use crate::gate::{Gate, OpenGate, Spot};
use crate::memory::{FixedSink, SteadySource};
use crate::planned::{MemorySink, MemorySource};
use crate::transfer::{ReadAllFault, WriteFault, read_all, write_all};
use std::alloc::Global;
use std::process::Abort;
use std::test::Fail;

const TEXT: &[u8] = b"abcdefghij";

#[test]
fn a_source_is_read_to_its_end_or_its_limit(rt: HostRuntime) -> Result<(), Fail> {
    let alloc = rt.alloc();
    let mut steady = SteadySource::new(Vec::from_slice(alloc, TEXT)?);
    assert_eq!(rt; steady.read(&mut [0; 4]), Ok(4));
    let rest = read_all(alloc, &mut steady, 6).or(Err("not read to its end"))?;
    assert_eq!(rt; rest.as_slice(), b"efghij".as_slice());
    for (limit, failing, want) in [
        (3, 0, None),
        (2, 0, Some(ReadAllFault::TooLong)),
        (3, 1, Some(ReadAllFault::ReadFault)),
    ] {
        let bytes = Vec::from_slice(alloc, b"abc")?;
        let mut source = MemorySource::new(bytes, 2, Vec::from_slice(alloc, &[failing])?);
        match read_all(alloc, &mut source, limit) {
            Ok(text) => {
                assert_eq!(rt; want, None, "limit {limit}");
                assert_eq!(rt; text.as_slice(), b"abc".as_slice());
            }
            Err(fault) => assert_eq!(rt; want, Some(fault), "limit {limit}"),
        }
    }
    Ok(())
}

#[test]
fn a_sink_takes_what_it_has_room_for(rt: HostRuntime) -> Result<(), Fail> {
    let alloc = rt.alloc();
    let mut wide = FixedSink::new(alloc, 3)?;
    assert_eq!(rt; write_all(&mut wide, b"abc"), Ok(()));
    let mut narrow = FixedSink::new(alloc, 2)?;
    assert_eq!(rt; write_all(&mut narrow, b"abc"), Err(WriteFault));
    assert_eq!(rt; narrow.held(), b"ab".as_slice());

    let mut sink = FixedSink::new(alloc, 3)?;
    assert_eq!(rt; sink.held(), b"".as_slice());
    assert_eq!(rt; sink.write(b"abcd"), Ok(3));
    assert_eq!(rt; sink.write(b"d"), Err(Failed));
    assert_eq!(rt; sink.held(), b"abc".as_slice());
    OpenGate.pass(
        0,
        Spot {
            degree: 1,
            column: 0,
            after: false,
        },
    );
    Ok(())
}

// A transfer of ten bytes whose call with this number fails, after so many bytes if it comes to that.
fn read_stops(
    rt: &impl Abort,
    alloc: Global,
    piece: usize,
    failing: u32,
    after: Option<usize>,
) -> Result<(), Fail>
    requires { 0 < piece }
{
    let bytes = Vec::from_slice(alloc, TEXT)?;
    let mut source = MemorySource::new(bytes, piece, Vec::from_slice(alloc, &[failing])?);
    let first = read_all(alloc, &mut source, 10);
    assert_eq!(rt;
        first.is_err(),
        after.is_some(),
        "read {failing} by {piece}"
    );
    let text = match first {
        Ok(text) => text,
        Err(_) => read_all(alloc, &mut source, 10).or(Err("the next read fails"))?,
    };
    let gone = after.unwrap_or(0);
    assert_eq!(rt;
        Some(text.as_slice()),
        TEXT.get(gone..),
        "read {failing} by {piece}"
    );
    Ok(())
}

fn write_stops(
    rt: &impl Abort,
    alloc: Global,
    piece: usize,
    failing: u32,
    after: Option<usize>,
) -> Result<(), Fail>
    requires { 0 < piece }
{
    let mut sink = MemorySink::new(alloc, piece, Vec::from_slice(alloc, &[failing])?);
    let first = write_all(&mut sink, TEXT);
    assert_eq!(rt;
        first.is_err(),
        after.is_some(),
        "write {failing} by {piece}"
    );
    let gone = after.unwrap_or(10);
    assert_eq!(rt;
        Some(sink.held()),
        TEXT.get(..gone),
        "write {failing} by {piece}"
    );
    Ok(())
}

#[test]
fn a_transfer_stops_at_the_call_that_fails(rt: HostRuntime) -> Result<(), Fail> {
    for (piece, reads, writes) in [
        (
            1,
            [Some(0), Some(1), Some(2), Some(3)],
            [Some(0), Some(1), Some(2), Some(3)],
        ),
        (
            2,
            [Some(0), Some(2), Some(4), Some(6)],
            [Some(0), Some(2), Some(4), Some(6)],
        ),
        (
            3,
            [Some(0), Some(3), Some(6), Some(9)],
            [Some(0), Some(3), Some(6), Some(9)],
        ),
        // The end takes a read more, and no write.
        (
            10,
            [Some(0), Some(10), None, None],
            [Some(0), None, None, None],
        ),
    ] {
        assert!(rt; piece > 0);
        for (failing, after) in (1..).zip(reads) {
            read_stops(&rt, rt.alloc(), piece, failing, after)?;
        }
        for (failing, after) in (1..).zip(writes) {
            write_stops(&rt, rt.alloc(), piece, failing, after)?;
        }
    }
    Ok(())
}
