// Documents of the generator: one whole, and those at the ends of the ranges.
use std::test::Fail;
use svc_text::make_document;

// The number of lines.
fn line_count(text: &[u8]) -> usize {
    text.iter().filter(|byte| **byte == b'\n').count()
}

#[test]
fn a_small_document(rt: HostRuntime) -> Result<(), Fail> {
    let text = make_document(rt.alloc(), 3, 5, 1)?;
    let expected = "input i1 : int = 149\n\
        derived d1 : int rank 1 = sum() over i1\n\
        derived d2 : int rank 2 = sum() over i1, d1\n\
        drop d2 d1\n\
        set i1 = 742\n\
        settle\n";
    assert_eq!(rt; text.as_slice(), expected.as_bytes());
    Ok(())
}

#[test]
fn the_least_document(rt: HostRuntime) -> Result<(), Fail> {
    let text = make_document(rt.alloc(), 2, 2, 0)?;
    let expected = "input i1 : int = 74\nderived d1 : int rank 1 = sum() over i1\nsettle\n";
    assert_eq!(rt; text.as_slice(), expected.as_bytes());
    Ok(())
}

#[test]
fn the_greatest_documents(rt: HostRuntime) -> Result<(), Fail> {
    let sets = make_document(rt.alloc(), 64, 1024, 65536)?;
    assert_eq!(rt; sets.len(), 14841);
    assert_eq!(rt; line_count(sets.as_slice()), 1025);
    let mixed = make_document(rt.alloc(), 64, 1024, 7)?;
    assert_eq!(rt; mixed.len(), 14937);
    assert_eq!(rt; line_count(mixed.as_slice()), 1025);
    Ok(())
}
