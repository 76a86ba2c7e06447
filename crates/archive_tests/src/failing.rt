// Fakes of which each call fails in turn.
use crate::calls::is_found;
use state_archive::{Archive, KeepError, Keeper, MemoryArchive, MemoryKeeper};
use std::alloc::{AllocError, Global};
use std::test::Fail;

// The places, from 1, of the calls that answered `Failed`.
fn failed_of(results: &[Result<(), KeepError>], alloc: Global) -> Result<Vec<usize>, AllocError> {
    let mut failed = Vec::new(alloc);
    for (place, result) in results.iter().enumerate() {
        if *result == Err(KeepError::Failed) {
            failed.push(usize::saturating_add(place, 1))?;
        }
    }
    Ok(failed)
}

// Seven calls, of which these answered `Failed`.
fn run_archive(alloc: Global, archive: &mut MemoryArchive) -> Result<Vec<usize>, AllocError> {
    let results = [
        archive.save(1, b"one"),
        archive.save(2, b"two"),
        archive.save(4, b"four"),
        archive.save(3, b"three"),
        archive.load().map(|_| ()),
        archive.load_at(1).map(|_| ()),
        archive.legs().map(|_| ()),
    ];
    failed_of(&results, alloc)
}

// Three calls, of which these answered `Failed`.
fn run_keeper(alloc: Global, keeper: &mut MemoryKeeper) -> Result<Vec<usize>, AllocError> {
    let results = [
        keeper.save(1, b"one"),
        keeper.save(2, b"two"),
        keeper.load().map(|_| ()),
    ];
    failed_of(&results, alloc)
}

#[test]
fn each_call_of_an_archive_fails_in_turn(rt: HostRuntime) -> Result<(), Fail> {
    let alloc = rt.alloc();
    let rows: [(u32, &[u32], &[u8]); 8] = [
        (1, &[2, 3], b"three"),
        (2, &[1, 3], b"three"),
        (3, &[1, 2, 3], b"three"),
        (4, &[1, 2, 4], b"four"),
        (5, &[1, 2, 3], b"three"),
        (6, &[1, 2, 3], b"three"),
        (7, &[1, 2, 3], b"three"),
        (0, &[1, 2, 3], b"three"),
    ];
    for (call, legs, last) in rows {
        let mut archive = MemoryArchive::failing(alloc, vec![in alloc; call]?);
        let failed = run_archive(alloc, &mut archive)?;
        assert_eq!(rt;
            failed.first().copied(),
            (call > 0).then_some(call as usize)
        );
        assert!(rt; failed.len() < 2);
        assert_eq!(rt; archive.legs()?.as_slice(), legs, "{call}");
        assert!(rt; is_found(archive.load()?, Some(last)), "{call}");
    }
    Ok(())
}

#[test]
fn each_call_of_a_keeper_fails_in_turn(rt: HostRuntime) -> Result<(), Fail> {
    let alloc = rt.alloc();
    let rows: [(u32, &[u8]); 4] = [(1, b"two"), (2, b"one"), (3, b"two"), (0, b"two")];
    for (call, last) in rows {
        let mut keeper = MemoryKeeper::failing(alloc, vec![in alloc; call]?);
        let failed = run_keeper(alloc, &mut keeper)?;
        assert_eq!(rt;
            failed.first().copied(),
            (call > 0).then_some(call as usize)
        );
        assert!(rt; failed.len() < 2);
        assert!(rt; is_found(keeper.load()?, Some(last)), "{call}");
    }
    Ok(())
}
