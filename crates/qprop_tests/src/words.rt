// Words that are no command.
use crate::calls::called;
use qprop_cli::{Status, USAGE};
use std::test::Fail;

#[test]
fn other_words_write_the_usage_line(rt: HostRuntime) -> Result<(), Fail> {
    let alloc = rt.alloc();
    let rows: [&[&str]; 10] = [
        &[],
        &["run"],
        &["step", "step"],
        &["frames", "frames"],
        &["frame"],
        &["Step"],
        &["step "],
        &["check", "--"],
        &["central", "--trace"],
        &["--help"],
    ];
    for words in rows {
        let ended = called(alloc, words)?;
        assert!(rt; ended.status == Status::Usage);
        assert_eq!(rt; ended.held.as_slice(), USAGE.as_bytes());
    }
    let ended = called(alloc, &["step"])?;
    assert!(rt; ended.status == Status::Done);
    assert!(rt; ended.held.is_empty());
    Ok(())
}
