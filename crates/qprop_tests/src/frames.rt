// Streams of frames.
use crate::calls::{Ended, call, call_with, repeated};
use document_reading::{Code, Refusal};
use qprop_cli::{MAX_DOCUMENT_LEN, Status};
use std::alloc::Global;
use std::test::Fail;

// Two frames.
const STREAM: &[u8] = &[0, 5, 1, 0, 0, 0, 1, 0, 8, 3, 0, 0, 0, 1, 1, 0, 0];

const STREAM_LINES: &str = "subscribe 1\nsources 1 0\n";

// A call of `frames` on the stream.
fn frames(alloc: Global, stream: &[u8]) -> Result<Ended, Fail> {
    call(alloc, "frames", stream)
}

#[test]
fn streams_are_shown(rt: HostRuntime) -> Result<(), Fail> {
    let alloc = rt.alloc();
    let rows: [(&[u8], &str); 7] = [
        (STREAM, STREAM_LINES),
        (&[], ""),
        (&[0, 5, 2, 0, 0, 1, 2], "unsubscribe 258\n"),
        (&[0, 10, 3, 0, 0, 0, 1, 2, 0, 0, 0, 3], "sources 1 0,3\n"),
        (
            &[
                0, 23, 4, 0, 0, 0, 1, 1, 255, 255, 255, 255, 255, 255, 255, 255, 2, 0, 0, 0, 4, 0,
                0, 0, 3,
            ],
            "value 1 -1 clocks 4,3\n",
        ),
        (
            &[0, 18, 5, 0, 0, 0, 1, 3, 1, 2, 0, 0, 0, 0, 1, 1, 0, 0, 0, 2],
            "value2 1 !overflow clocks 0:1,1:2\n",
        ),
        (
            &[0, 11, 5, 0, 0, 0, 1, 2, 0, 2, b'a', b'"', 0],
            "value2 1 \"a\\\"\" clocks -\n",
        ),
    ];
    for (stream, lines) in rows {
        let ended = frames(alloc, stream)?;
        assert!(rt; ended.status == Status::Done, "{lines}");
        assert!(rt; !ended.has_network, "{lines}");
        assert!(rt; ended.held.as_slice() == lines.as_bytes(), "{lines}");
    }
    let ended = call_with(alloc, "frames", STREAM, 1, 0, 1, 0)?;
    assert_eq!(rt; ended.held.as_slice(), STREAM_LINES.as_bytes());
    Ok(())
}

#[test]
fn wrong_frames_are_numbered(rt: HostRuntime) -> Result<(), Fail> {
    let alloc = rt.alloc();
    let rows: [(&str, &[u8], u32); 8] = [
        (
            "without its last byte",
            &[0, 5, 1, 0, 0, 0, 1, 0, 8, 3, 0, 0, 0, 1, 1, 0],
            2,
        ),
        ("ends inside a length", &[0, 5, 1, 0, 0, 0, 1, 0], 2),
        (
            "two wrong frames in a row",
            &[0, 5, 1, 0, 0, 0, 0, 0, 5, 1, 0, 0, 0, 0],
            1,
        ),
        (
            "two wrong frames behind a right one",
            &[
                0, 5, 1, 0, 0, 0, 1, 0, 5, 6, 0, 0, 0, 0, 0, 5, 6, 0, 0, 0, 0,
            ],
            2,
        ),
        (
            "a frame shorter than its length",
            &[0, 6, 1, 0, 0, 0, 1, 0],
            1,
        ),
        ("a frame longer than its length", &[0, 4, 1, 0, 0, 0, 1], 1),
        ("no frame", &[0, 0], 1),
        ("a length of 586", &[2, 74, 5, 0, 0, 0, 1], 1),
    ];
    for (name, stream, line) in rows {
        let ended = frames(alloc, stream)?;
        let refusal = Refusal {
            line,
            code: Code::E20,
        };
        assert!(rt; ended.status == Status::Refused(refusal), "{name}");
        assert!(rt; !ended.has_network, "{name}");
    }
    let ended = frames(alloc, &[0, 5, 1, 0, 0, 0, 1, 0])?;
    assert_eq!(rt; ended.held.as_slice(), b"refused 2 E20\n".as_slice());
    Ok(())
}

// The longest frame after its length: a text of 256 bytes, and a clock of 1 at each place.
fn longest(alloc: Global) -> Result<Vec<u8>, Fail> {
    let mut stream = Vec::from_slice(alloc, &[2, 73, 5, 0, 0, 0, 1, 2, 1, 0])?;
    for _ in 0..256 {
        stream.push(b'a')?;
    }
    stream.push(64)?;
    for place in 0..64u8 {
        stream.extend_from_slice(&[place, 0, 0, 0, 1])?;
    }
    Ok(stream)
}

#[test]
fn the_limits_of_streams_are_exact(rt: HostRuntime) -> Result<(), Fail> {
    let alloc = rt.alloc();
    let ended = frames(alloc, longest(alloc)?.as_slice())?;
    assert!(rt; ended.status == Status::Done);
    assert!(rt; ended.held.as_slice().starts_with(b"value2 1 \"aaaa"));
    assert!(rt; ended.held.as_slice().ends_with(b",62:1,63:1\n"));
    let most = repeated(alloc, "", "\0", MAX_DOCUMENT_LEN)?;
    let ended = frames(alloc, most.as_slice())?;
    assert_eq!(rt; ended.held.as_slice(), b"refused 1 E20\n".as_slice());
    let more = repeated(alloc, "\0", "\0", MAX_DOCUMENT_LEN)?;
    let ended = frames(alloc, more.as_slice())?;
    assert_eq!(rt; ended.held.as_slice(), b"refused 0 E01\n".as_slice());
    Ok(())
}

#[test]
fn failing_streams_end_a_call_of_frames(rt: HostRuntime) -> Result<(), Fail> {
    let alloc = rt.alloc();
    let ended = call_with(alloc, "frames", STREAM, 4096, 0, 8, 3)?;
    assert!(rt; ended.status == Status::WriteFault);
    assert_eq!(rt; ended.held.as_slice(), b"subscribe 1\nsour".as_slice());
    let ended = call_with(alloc, "frames", STREAM, 4, 3, 4096, 0)?;
    assert!(rt; ended.status == Status::ReadFault);
    assert!(rt; ended.held.is_empty());
    Ok(())
}
