// The dense form beside a plain one, sorted pairs of key and clock, on the same cases.
use stamp_clock::{Floor, Stamps};
use std::alloc::{AllocError, Global};
use std::process::Abort;
use std::test::Fail;
use svc_value::{Clock, Clocks, OutOfMemory, ServiceId};

type Pair = (u16, u32);

// ---- the plain form

fn plain_get(stamps: &[Pair], key: u16) -> Option<u32> {
    for pair in stamps {
        if pair.0 == key {
            return Some(pair.1);
        }
    }
    None
}

fn plain_agrees(left: &[Pair], right: &[Pair]) -> bool {
    for pair in left {
        if plain_get(right, pair.0).unwrap_or(pair.1) != pair.1 {
            return false;
        }
    }
    true
}

fn plain_join(alloc: Global, left: &[Pair], right: &[Pair]) -> Result<Vec<Pair>, AllocError> {
    let mut both = Vec::new(alloc);
    for key in 0..64 {
        let clock = plain_get(left, key).max(plain_get(right, key));
        if let Some(clock) = clock {
            both.push((key, clock))?;
        }
    }
    Ok(both)
}

fn plain_lags(floor: &[Pair], stamps: &[Pair]) -> Option<u16> {
    for pair in stamps {
        if pair.1 < plain_get(floor, pair.0).unwrap_or(0) {
            return Some(pair.0);
        }
    }
    None
}

// ---- the dense form

fn dense(alloc: Global, pairs: &[Pair]) -> Result<Stamps, OutOfMemory> {
    let mut stamps = Stamps::of(alloc, &[], &[])?;
    for pair in pairs {
        if pair.0 < 64 && pair.1 > 0 {
            let one = Stamps::one(alloc, ServiceId(pair.0), Clock(pair.1))?;
            stamps = stamps.join(&one)?;
        }
    }
    Ok(stamps)
}

fn pairs_of(alloc: Global, stamps: &Stamps) -> Result<Vec<Pair>, AllocError> {
    let mut pairs = Vec::new(alloc);
    for (key, clock) in stamps.iter() {
        pairs.push((key.0, clock.0))?;
    }
    Ok(pairs)
}

fn dense_lags(floor: &Stamps, stamps: &Stamps) -> Result<Option<u16>, OutOfMemory> {
    let mut raised = Floor::new();
    raised.raise(floor)?;
    Ok(raised.lags(stamps).map(|key| key.0))
}

// ---- both

#[derive(Drop)]
struct Case<'a> {
    name: &'a str,
    left: &'a [Pair],
    right: &'a [Pair],
    agrees: bool,
    union: &'a [Pair],
    // The first key on which the right lags behind the left.
    lags: Option<u16>,
}

fn run(rt: &impl Abort, alloc: Global, case: &Case<'_>) -> Result<(), Fail> {
    let left = dense(alloc, case.left)?;
    let right = dense(alloc, case.right)?;
    let union = pairs_of(alloc, &left.join(&right)?)?;
    let plain_union = plain_join(alloc, case.left, case.right)?;
    let lags = dense_lags(&left, &right)?;

    assert_eq!(rt; left.agrees(&right), case.agrees, "agrees, {}", case.name);
    assert_eq!(rt;
        plain_agrees(case.left, case.right),
        case.agrees,
        "plain, {}",
        case.name
    );
    assert_eq!(rt; union.as_slice(), case.union, "join, {}", case.name);
    assert_eq!(rt;
        plain_union.as_slice(),
        case.union,
        "plain join, {}",
        case.name
    );
    assert_eq!(rt; lags, case.lags, "lags, {}", case.name);
    assert_eq!(rt;
        plain_lags(case.left, case.right),
        case.lags,
        "plain lags, {}",
        case.name
    );
    Ok(())
}

#[test]
fn dense_is_plain(rt: HostRuntime) -> Result<(), Fail> {
    let cases = [
        Case {
            name: "nothing",
            left: &[],
            right: &[],
            agrees: true,
            union: &[],
            lags: None,
        },
        Case {
            name: "one side",
            left: &[(3, 7)],
            right: &[],
            agrees: true,
            union: &[(3, 7)],
            lags: None,
        },
        Case {
            name: "no common key",
            left: &[(0, 5), (63, 9)],
            right: &[(1, 2)],
            agrees: true,
            union: &[(0, 5), (1, 2), (63, 9)],
            lags: None,
        },
        Case {
            name: "equal common key",
            left: &[(0, 5), (63, 9)],
            right: &[(62, 1), (63, 9)],
            agrees: true,
            union: &[(0, 5), (62, 1), (63, 9)],
            lags: None,
        },
        Case {
            name: "second common key differs",
            left: &[(4, 1), (5, 2)],
            right: &[(4, 1), (5, 1)],
            agrees: false,
            union: &[(4, 1), (5, 2)],
            lags: Some(5),
        },
        Case {
            name: "right is above",
            left: &[(0, 5), (63, 9)],
            right: &[(0, 6), (63, 8)],
            agrees: false,
            union: &[(0, 6), (63, 9)],
            lags: Some(63),
        },
        Case {
            name: "two keys lag",
            left: &[(31, 2), (32, 4294967295), (33, 2)],
            right: &[(32, 4294967294), (33, 1)],
            agrees: false,
            union: &[(31, 2), (32, 4294967295), (33, 2)],
            lags: Some(32),
        },
    ];
    for case in &cases {
        run(&rt, rt.alloc(), case)?;
    }
    Ok(())
}

#[test]
fn dense_stamps(rt: HostRuntime) -> Result<(), Fail> {
    let alloc = rt.alloc();
    let stamps = dense(alloc, &[(0, 5), (63, 9)])?;
    assert_eq!(rt; stamps.len(), 2);
    assert_eq!(rt; stamps.key_at(1), ServiceId(63));
    assert_eq!(rt; stamps.clock_at(1), Clock(9));
    assert_eq!(rt; stamps.get(ServiceId(62)), None);
    assert_eq!(rt; stamps.next_key(1), Some(ServiceId(63)));
    assert_eq!(rt; stamps.next_key(64), None);
    assert!(rt; stamps.agrees(&dense(alloc, &[(63, 9)])?));
    assert!(rt; !stamps.agrees(&dense(alloc, &[(0, 4)])?));
    Ok(())
}

#[test]
fn floor_of_stamps(rt: HostRuntime) -> Result<(), Fail> {
    let alloc = rt.alloc();
    let mut floor = Floor::new();
    floor.raise(&dense(alloc, &[(0, 5), (63, 9)])?)?;
    floor.raise(&dense(alloc, &[(0, 4), (1, 1)])?)?;
    let floor = floor.copy()?;
    assert_eq!(rt; floor.get(ServiceId(0)), Some(Clock(5)));
    assert_eq!(rt; floor.get(ServiceId(1)), Some(Clock(1)));
    assert_eq!(rt; floor.get(ServiceId(2)), None);
    assert_eq!(rt; floor.get(ServiceId(64)), None);
    Ok(())
}

#[test]
fn memory_is_used_again(rt: HostRuntime) -> Result<(), Fail> {
    let alloc = rt.alloc();
    let long = dense(alloc, &[(0, 5), (1, 4), (63, 9)])?;
    let short = dense(alloc, &[(1, 7), (2, 1)])?;
    assert!(rt; long.keys().contains(ServiceId(63)));
    assert!(rt; !short.keys().contains(ServiceId(63)));

    let one = Stamps::one_in(long.into_clocks(), ServiceId(4), Clock(6))?;
    assert_eq!(rt; pairs_of(alloc, &one)?.as_slice(), [(4, 6)].as_slice());
    let union = short.join_in(&one, long_list(alloc)?)?;
    assert_eq!(rt;
        pairs_of(alloc, &union)?.as_slice(),
        [(1, 7), (2, 1), (4, 6)].as_slice()
    );
    let copy = short.copy_in(union.into_clocks())?;
    assert_eq!(rt;
        pairs_of(alloc, &copy)?.as_slice(),
        [(1, 7), (2, 1)].as_slice()
    );
    assert_eq!(rt;
        copy.into_clocks().as_slice(),
        [Clock(7), Clock(1)].as_slice()
    );
    Ok(())
}

// Clocks that none of the stamps has.
fn long_list(alloc: Global) -> Result<Clocks, OutOfMemory> {
    Clocks::from_slice(alloc, &[Clock(8); 5])
}
