use std::test::Fail;
use wire_frame::{CutError, Cutter};

#[test]
fn bytes_come_one_by_one(rt: HostRuntime) -> Result<(), Fail> {
    let stream = [0u8, 5, 1, 0, 0, 0, 1, 0, 8, 3, 0, 0, 0, 1, 1, 0, 0];
    let mut cutter = Cutter::new(rt.alloc());
    for (i, byte) in stream.iter().enumerate() {
        cutter.reserve(1)?;
        cutter.feed(&[*byte]);
        let item = cutter.next()?;
        let want = match i {
            6 => Some([1u8, 0, 0, 0, 1].as_slice()),
            16 => Some([3u8, 0, 0, 0, 1, 1, 0, 0].as_slice()),
            _ => None,
        };
        assert_eq!(rt; item.is_some(), want.is_some(), "after byte {i}");
        if let (Some(item), Some(want)) = (item, want) {
            assert_eq!(rt; item.as_slice(), want);
        }
    }
    Ok(())
}

#[test]
fn a_long_item_is_refused(rt: HostRuntime) -> Result<(), Fail> {
    let mut cutter = Cutter::new(rt.alloc());
    cutter.reserve(6)?;
    cutter.feed(&[0, 0, 2, 0x4a, 0, 0]);
    assert!(rt; cutter.next()?.is_some());
    assert_eq!(rt; cutter.next().err(), Some(CutError::Length { at: 2 }));
    assert_eq!(rt; cutter.next().err(), Some(CutError::Length { at: 2 }));
    Ok(())
}
