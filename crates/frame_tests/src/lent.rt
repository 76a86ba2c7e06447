use std::test::Fail;
use svc_value::{Fault, ServiceId, Value};
use wire_frame::{FrameRef, PlaceClock, read_frame_ref};

#[test]
fn lent_sources_have_their_keys(rt: HostRuntime) -> Result<(), Fail> {
    let bytes = [3, 0, 0, 0, 9, 2, 0, 3, 1, 0, 0xff];
    let (frame, len) = read_frame_ref(rt.alloc(), &bytes)?;
    assert_eq!(rt; len, 10);
    let FrameRef::Sources(announced) = frame else {
        return Err("no sources".into());
    };
    let epoch = announced.epoch;
    assert_eq!(rt; epoch.0, 9);
    let keys = announced.keys;
    assert_eq!(rt; keys.len(), 2);
    let mut at = 0;
    for key in keys.iter() {
        assert!(rt; at < keys.len());
        assert_eq!(rt; key, keys.at(at));
        at += 1;
    }
    assert_eq!(rt; at, 2);
    let list = keys.to_list(rt.alloc())?;
    assert_eq!(rt; list.as_slice(), [ServiceId(3), ServiceId(256)].as_slice());
    Ok(())
}

#[test]
fn lent_values_have_their_parts(rt: HostRuntime) -> Result<(), Fail> {
    let bytes = [5, 0, 0, 0, 9, 3, 1, 2, 0, 0, 0, 0, 1, 63, 1, 2, 3, 4, 0xff];
    let (frame, len) = read_frame_ref(rt.alloc(), &bytes)?;
    assert_eq!(rt; len, 18);
    let FrameRef::Changed(delta) = frame else {
        return Err("no value".into());
    };
    let epoch = delta.epoch;
    assert_eq!(rt; epoch.0, 9);
    assert!(rt; matches!(delta.value, Value::Bad(Fault::Overflow)));
    let clocks = delta.clocks;
    assert_eq!(rt; clocks.len(), 2);
    let mut at = 0;
    for named in clocks.iter() {
        assert!(rt; at < clocks.len());
        assert_eq!(rt; named, clocks.at(at));
        at += 1;
    }
    assert_eq!(rt; at, 2);
    let list = clocks.to_list(rt.alloc())?;
    let [first, second] = list.as_slice() else {
        return Err("not two places".into());
    };
    let (first, second): (PlaceClock, PlaceClock) = (*first, *second);
    let (one, two) = (first.clock, second.clock);
    assert_eq!(rt; (first.place, one.0), (0, 1));
    assert_eq!(rt; (second.place, two.0), (63, 0x0102_0304));
    Ok(())
}
