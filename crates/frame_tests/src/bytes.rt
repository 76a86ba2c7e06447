use std::alloc::Global;
use std::test::Fail;
use svc_value::{Clock, Fault, ServiceId, Value, ValueReason};
use wire_frame::{
    Frame, FrameError, FrameReason, PlaceClock, read_frame, read_frame_ref, write_frame,
    write_sources, write_value,
};

const BAD: [(&[u8], usize, FrameReason); 25] = [
    (&[3, 0, 0, 0, 1, 2, 0, 3, 0, 3], 9, FrameReason::Ids),
    (&[3, 0, 0, 0, 1, 2, 1, 0, 0, 3], 8, FrameReason::Ids),
    (
        &[3, 0, 0, 0, 1, 2, 0xff, 0xff, 0xff, 0xff],
        7,
        FrameReason::Ids,
    ),
    (&[3, 0, 0, 0, 1, 0], 5, FrameReason::Count),
    (&[3, 0, 0, 0, 1, 65], 5, FrameReason::Count),
    (&[1, 0, 0, 0, 0], 4, FrameReason::Epoch),
    (&[5], 1, FrameReason::Short),
    (&[6], 0, FrameReason::Kind),
    (&[], 0, FrameReason::Short),
    (&[3], 1, FrameReason::Short),
    (&[3, 0], 2, FrameReason::Short),
    (&[3, 0, 0], 3, FrameReason::Short),
    (&[3, 0, 0, 0], 4, FrameReason::Short),
    (&[3, 0, 0, 0, 1], 5, FrameReason::Short),
    (&[3, 0, 0, 0, 1, 1], 6, FrameReason::Short),
    (&[3, 0, 0, 0, 1, 1, 0], 7, FrameReason::Short),
    (
        &[4, 0, 0, 0, 1, 1, 0, 0, 0, 0, 0, 0, 0, 3, 1, 0, 0, 0, 0],
        18,
        FrameReason::Clocks,
    ),
    (
        &[4, 0, 0, 0, 1, 3, 6],
        6,
        FrameReason::Value(ValueReason::FaultCode),
    ),
    (
        &[4, 0, 0, 0, 1, 2, 1, 1],
        7,
        FrameReason::Value(ValueReason::Length),
    ),
    (
        &[4, 0, 0, 0, 1, 2, 0, 1, 0xc3],
        8,
        FrameReason::Value(ValueReason::Utf8),
    ),
    (
        &[5, 0, 0, 0, 1, 3, 1, 2, 0, 0, 0, 0, 1, 0],
        13,
        FrameReason::Places,
    ),
    (&[5, 0, 0, 0, 1, 3, 1, 2, 63], 8, FrameReason::Places),
    (&[5, 0, 0, 0, 1, 3, 1, 65], 7, FrameReason::Count),
    (&[5, 0, 0, 0, 1, 3, 1, 1, 64], 8, FrameReason::Places),
    (
        &[5, 0, 0, 0, 1, 3, 1, 1, 63, 0, 0, 0, 0],
        12,
        FrameReason::Clocks,
    ),
];

#[test]
fn bad_bytes_are_refused(rt: HostRuntime) -> Result<(), Fail> {
    for (bytes, place, reason) in BAD {
        assert_eq!(rt;
            read_frame(rt.alloc(), bytes).err(),
            Some(FrameError::Bad { place, reason }),
            "{bytes:?}"
        );
    }
    Ok(())
}

const SOURCES: [u8; 8] = [3, 0, 0, 0, 1, 1, 0, 0];

const CHANGED: [u8; 20] = [5, 0, 0, 0, 1, 1, 0, 0, 0, 0, 0, 0, 0, 3, 1, 0, 0, 0, 0, 1];

const CARRIED: [u8; 14] = [4, 0, 0, 0, 1, 2, 0, 1, 97, 1, 0, 0, 0, 2];

// A frame, a place in it, the byte that is put there, and the answer: the length of the frame, or why there is none.
const BENT: [(&[u8], usize, u8, Result<usize, (usize, FrameReason)>); 20] = [
    (&SOURCES, 0, 0x00, Err((0, FrameReason::Kind))),
    (&SOURCES, 0, 0x80, Err((0, FrameReason::Kind))),
    (&SOURCES, 1, 0xff, Ok(8)),
    (&SOURCES, 4, 0x00, Err((4, FrameReason::Epoch))),
    (&SOURCES, 5, 0x7f, Err((5, FrameReason::Count))),
    (&SOURCES, 7, 0xff, Ok(8)),
    (
        &CHANGED,
        5,
        0x7f,
        Err((5, FrameReason::Value(ValueReason::Tag))),
    ),
    (&CHANGED, 6, 0x80, Ok(20)),
    (&CHANGED, 14, 0x00, Ok(15)),
    (&CHANGED, 14, 0x7f, Err((14, FrameReason::Count))),
    (&CHANGED, 15, 0x7f, Err((15, FrameReason::Places))),
    (&CHANGED, 15, 0xff, Err((15, FrameReason::Places))),
    (&CHANGED, 19, 0x00, Err((19, FrameReason::Clocks))),
    (
        &CARRIED,
        6,
        0x7f,
        Err((6, FrameReason::Value(ValueReason::Length))),
    ),
    (&CARRIED, 7, 0x00, Err((8, FrameReason::Count))),
    (&CARRIED, 7, 0x7f, Err((14, FrameReason::Short))),
    (&CARRIED, 8, 0x00, Ok(14)),
    (
        &CARRIED,
        8,
        0x80,
        Err((8, FrameReason::Value(ValueReason::Utf8))),
    ),
    (
        &CARRIED,
        8,
        0xff,
        Err((8, FrameReason::Value(ValueReason::Utf8))),
    ),
    (&CARRIED, 9, 0x00, Err((9, FrameReason::Count))),
];

#[test]
fn bent_frames_are_answered(rt: HostRuntime) -> Result<(), Fail> {
    for (frame, at, byte, want) in BENT {
        let mut bytes = frame.to_vec(rt.alloc())?;
        assert!(rt; at < bytes.len());
        bytes[at] = byte;
        assert_eq!(rt;
            length_of(rt.alloc(), bytes.as_slice())?,
            want,
            "byte {at} as {byte} in {frame:?}"
        );
    }
    Ok(())
}

fn length_of(alloc: Global, bytes: &[u8]) -> Result<Result<usize, (usize, FrameReason)>, Fail> {
    match read_frame(alloc, bytes) {
        Ok((_, len)) => Ok(Ok(len)),
        Err(FrameError::Bad { place, reason }) => Ok(Err((place, reason))),
        Err(FrameError::OutOfMemory) => Err("out of memory".into()),
    }
}

const WHOLE: [(&[u8], usize); 7] = [
    (&[1, 0, 0, 0, 1], 5),
    (&[2, 0, 0, 1, 0, 9, 9], 5),
    (&[3, 0, 0, 0, 1, 1, 0, 0], 8),
    (&[3, 0, 0, 0, 1, 2, 0, 3, 1, 0, 7], 10),
    (&[4, 0, 0, 0, 1, 2, 0, 1, 97, 1, 0, 0, 0, 2], 14),
    (&[5, 0, 0, 0, 1, 3, 1, 2, 0, 0, 0, 0, 1, 1, 0, 0, 0, 2], 18),
    (&[5, 0, 0, 0, 1, 3, 2, 0], 8),
];

#[test]
fn frames_are_written_as_they_are_read(rt: HostRuntime) -> Result<(), Fail> {
    for (bytes, len) in WHOLE {
        let (frame, read) = read_frame(rt.alloc(), bytes)?;
        assert_eq!(rt; read, len, "{bytes:?}");
        let mut out = Vec::new(rt.alloc());
        write_frame(&frame, &mut out)?;
        assert_eq!(rt; Some(out.as_slice()), bytes.get(..len), "{bytes:?}");
    }
    Ok(())
}

// What is refused of the bytes where their places are lent, or how many bytes the frame has.
fn lent_length(alloc: Global, bytes: &[u8]) -> Result<usize, FrameError> {
    let (_, len) = read_frame_ref(alloc, bytes)?;
    Ok(len)
}

#[test]
fn bad_bytes_lend_nothing(rt: HostRuntime) -> Result<(), Fail> {
    for (bytes, place, reason) in BAD {
        assert_eq!(rt;
            lent_length(rt.alloc(), bytes),
            Err(FrameError::Bad { place, reason }),
            "{bytes:?}"
        );
    }
    Ok(())
}

#[test]
fn bent_frames_lend_as_they_are_read(rt: HostRuntime) -> Result<(), Fail> {
    for (frame, at, byte, want) in BENT {
        let mut bytes = frame.to_vec(rt.alloc())?;
        assert!(rt; at < bytes.len());
        bytes[at] = byte;
        assert_eq!(rt;
            lent_length(rt.alloc(), bytes.as_slice()),
            want.map_err(|(place, reason)| FrameError::Bad { place, reason }),
            "byte {at} as {byte} in {frame:?}"
        );
    }
    Ok(())
}

#[test]
fn parts_are_written_as_their_frame(rt: HostRuntime) -> Result<(), Fail> {
    let mut out = Vec::new(rt.alloc());
    let keys = [ServiceId(3), ServiceId(256)];
    write_sources(Clock(1), &keys, &mut out)?;
    assert_eq!(rt; out.as_slice(), [3, 0, 0, 0, 1, 2, 0, 3, 1, 0].as_slice());
    let clocks = [PlaceClock {
        place: 0,
        clock: Clock(1),
    }];
    write_value(Clock(1), &Value::Bad(Fault::Overflow), &clocks, &mut out)?;
    assert_eq!(rt;
        out.get(10..),
        Some([5, 0, 0, 0, 1, 3, 1, 1, 0, 0, 0, 0, 1].as_slice())
    );
    Ok(())
}

#[test]
fn frames_have_their_parts(rt: HostRuntime) -> Result<(), Fail> {
    let (subscribe, _) = read_frame(rt.alloc(), &[1, 0, 0, 0, 1])?;
    assert!(rt; matches!(subscribe, Frame::Subscribe(Clock(1))));
    let (sources, _) = read_frame(rt.alloc(), &SOURCES)?;
    let Frame::Sources(announced) = sources else {
        return Err("no sources".into());
    };
    let epoch = announced.epoch;
    assert_eq!(rt; epoch.0, 1);
    let [key] = announced.keys.as_slice() else {
        return Err("not one key".into());
    };
    let key: ServiceId = *key;
    assert_eq!(rt; key.0, 0);
    let (changed, _) = read_frame(
        rt.alloc(),
        &[5, 0, 0, 0, 1, 3, 1, 2, 0, 0, 0, 0, 1, 1, 0, 0, 0, 2],
    )?;
    let Frame::Changed(delta) = changed else {
        return Err("no value".into());
    };
    assert!(rt; matches!(delta.value, Value::Bad(Fault::Overflow)));
    let [first, second] = delta.clocks.as_slice() else {
        return Err("not two places".into());
    };
    let (first, second): (PlaceClock, PlaceClock) = (*first, *second);
    let (one, two) = (first.clock, second.clock);
    assert_eq!(rt; (first.place, one.0), (0, 1));
    assert_eq!(rt; (second.place, two.0), (1, 2));
    Ok(())
}

// What the frame answers with the byte at `at` replaced: a byte before that place is never blamed.
fn blames_no_earlier_byte(alloc: Global, frame: &[u8], at: usize, byte: u8) -> Result<bool, Fail> {
    let mut bytes = frame.to_vec(alloc)?;
    if let Some(bent) = bytes.get_mut(at) {
        *bent = byte;
    }
    Ok(match length_of(alloc, bytes.as_slice())? {
        Ok(len) => len <= bytes.len(),
        Err((place, _)) => at <= place,
    })
}

#[test]
fn every_byte_bent_is_answered(rt: HostRuntime) -> Result<(), Fail> {
    for (frame, _) in WHOLE {
        for at in 0..frame.len() {
            for byte in [0, 0x7f, 0x80, 0xff] {
                assert!(rt;
                    blames_no_earlier_byte(rt.alloc(), frame, at, byte)?,
                    "byte {at} as {byte} in {frame:?}"
                );
            }
        }
    }
    Ok(())
}
