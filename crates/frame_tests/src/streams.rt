use std::alloc::Global;
use std::test::Fail;
use svc_value::Clock;
use wire_frame::{Frame, FrameReason, Framer, StreamError};

const STREAM: [u8; 17] = [0, 5, 1, 0, 0, 0, 1, 0, 8, 3, 0, 0, 0, 1, 1, 0, 0];

fn fed(alloc: Global, piece: &[u8]) -> Result<Framer, Fail> {
    let mut framer = Framer::new(alloc);
    framer.feed(piece)?;
    Ok(framer)
}

#[test]
fn a_stream_comes_whole(rt: HostRuntime) -> Result<(), Fail> {
    let mut framer = fed(rt.alloc(), &STREAM)?;
    assert!(rt; matches!(framer.next()?, Some(Frame::Subscribe(Clock(1)))));
    assert!(rt; matches!(framer.next()?, Some(Frame::Sources(_))));
    assert!(rt; framer.next()?.is_none());
    Ok(())
}

#[test]
fn a_stream_comes_byte_by_byte(rt: HostRuntime) -> Result<(), Fail> {
    let mut framer = Framer::new(rt.alloc());
    assert!(rt; framer.next()?.is_none());
    for (i, byte) in STREAM.iter().enumerate() {
        framer.feed(&[*byte])?;
        let frame = framer.next()?;
        assert_eq!(rt; frame.is_some(), i == 6 || i == 16, "after byte {i}");
    }
    Ok(())
}

// A stream, how many frames stand in it, and what comes after them: nothing more, or the first wrong frame.
const STREAMS: [(&[u8], usize, Option<(u64, usize, FrameReason)>); 9] = [
    (&[], 0, None),
    (&[0, 5, 1, 0, 0, 0, 1, 0, 8, 3, 0, 0, 0, 1, 1, 0], 1, None),
    (&[0, 5, 1, 0, 0, 0, 1, 0], 1, None),
    (&[2, 0x49, 5, 0, 0, 0, 1], 0, None),
    (&[2, 0x4a], 0, Some((0, 0, FrameReason::Length))),
    (
        &[0, 5, 1, 0, 0, 0, 1, 0xff, 0xff],
        1,
        Some((7, 0, FrameReason::Length)),
    ),
    (&[0, 1, 6, 0, 1, 7], 0, Some((0, 0, FrameReason::Kind))),
    (
        &[0, 4, 1, 0, 0, 0, 0, 5, 1, 0, 0, 0, 1],
        0,
        Some((0, 4, FrameReason::Short)),
    ),
    (
        &[0, 5, 1, 0, 0, 0, 1, 0, 6, 1, 0, 0, 0, 1, 0],
        1,
        Some((7, 5, FrameReason::Rest)),
    ),
];

#[test]
fn streams_end_at_the_first_wrong_frame(rt: HostRuntime) -> Result<(), Fail> {
    for (stream, frames, end) in STREAMS {
        let mut framer = fed(rt.alloc(), stream)?;
        for _ in 0..frames {
            assert!(rt; framer.next()?.is_some(), "{stream:?}");
        }
        for _ in 0..2 {
            let last = framer.next();
            match end {
                None => assert!(rt; matches!(last, Ok(None)), "{stream:?}"),
                Some((at, place, reason)) => {
                    assert_eq!(rt;
                        last.err(),
                        Some(StreamError::Bad { at, place, reason }),
                        "{stream:?}"
                    );
                }
            }
            framer.feed(&[])?;
        }
    }
    Ok(())
}
