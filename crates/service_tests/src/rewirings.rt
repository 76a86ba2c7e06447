// A service that reads, ends that, and reads again; and a dependency that goes and comes back.
use rewire_core::{Edges, ReaderError, Readers};
use std::process::Abort;
use std::test::Fail;
use svc_value::{Clock, OutOfMemory, ServiceId};

// What is asked of the readers.
#[derive(Clone, Copy)]
enum Asked {
    Subscribe(u16, bool, u32),
    Unsubscribe(u16, u32),
}

fn answer(readers: &mut Readers, asked: Asked) -> Result<(), ReaderError> {
    match asked {
        Asked::Subscribe(reader, above, epoch) => {
            readers.subscribe(ServiceId(reader), above, Clock(epoch))
        }
        Asked::Unsubscribe(reader, epoch) => readers.unsubscribe(ServiceId(reader), Clock(epoch)),
    }
}

fn pair(id: u16, epoch: u32) -> (ServiceId, Clock) {
    (ServiceId(id), Clock(epoch))
}

#[test]
fn readers_come_and_go(rt: HostRuntime) -> Result<(), Fail> {
    let mut readers = Readers::new(rt.alloc());
    let back = |had: u32| Err(ReaderError::EpochBack { had: Clock(had) });
    let table = [
        (Asked::Unsubscribe(2, 1), Err(ReaderError::Unknown)),
        (
            Asked::Subscribe(2, false, 1),
            Err(ReaderError::RankNotHigher),
        ),
        (Asked::Subscribe(2, true, 2), Ok(())),
        (Asked::Subscribe(5, true, 1), Ok(())),
        (
            Asked::Subscribe(2, false, 1),
            Err(ReaderError::RankNotHigher),
        ),
        (Asked::Subscribe(2, true, 1), Err(ReaderError::Twice)),
        (Asked::Unsubscribe(2, 1), Err(ReaderError::Unknown)),
        (Asked::Unsubscribe(2, 2), Ok(())),
        (Asked::Unsubscribe(2, 2), Err(ReaderError::Unknown)),
        (Asked::Subscribe(2, true, 2), back(2)),
        (Asked::Subscribe(2, true, 4), Ok(())),
    ];
    for (asked, expected) in table {
        assert_eq!(rt; answer(&mut readers, asked), expected);
    }
    assert_eq!(rt; readers.as_slice(), [pair(5, 1), pair(2, 4)].as_slice());
    let copy = readers.copy()?;
    assert_eq!(rt; copy.epoch(ServiceId(5)), Some(Clock(1)));
    assert_eq!(rt; copy.last_epoch(ServiceId(2)), Clock(4));
    assert_eq!(rt; copy.last_epoch(ServiceId(3)), Clock(0));
    Ok(())
}

#[test]
fn edges_come_and_go(rt: HostRuntime) -> Result<(), Fail> {
    let mut edges = Edges::new(rt.alloc());
    edges.add(ServiceId(3), Clock(1))?;
    edges.add(ServiceId(4), Clock(1))?;
    assert_eq!(rt; edges.drop_edge(ServiceId(3)), Clock(1));
    assert_eq!(rt; edges.epoch(ServiceId(3)), None);
    edges.add(ServiceId(3), Clock(3))?;
    let next = edges.rewired(&[ServiceId(3), ServiceId(7)], Clock(4))?;
    assert_eq!(rt; next.as_slice(), [pair(3, 3), pair(7, 4)].as_slice());
    let copy = edges.copy()?;
    assert_eq!(rt; copy.as_slice(), [pair(4, 1), pair(3, 3)].as_slice());
    assert_eq!(rt; copy.len(), 2);
    Ok(())
}
