use std::alloc::Global;
use std::test::Fail;
use svc_text::{Mode, print_document, read_document};

// The canonical document of the plan of a document, behind these bytes; nothing where it is refused.
fn printed_again(alloc: Global, text: &str, mode: Mode, before: &[u8]) -> Result<Vec<u8>, Fail> {
    let mut out = Vec::from_slice(alloc, before)?;
    if let Ok(plan) = read_document(alloc, text.as_bytes(), mode) {
        print_document(&plan, &mut out)?;
    }
    Ok(out)
}

const MAKE: &str = "input i1 : int = 149
derived d1 : int rank 1 = sum() over i1
derived d2 : int rank 2 = sum() over i1, d1
drop d2 d1
set i1 = 742
settle
";

const PLAN_WITH_A_DROP: &str = "input a : int = 1
input b : int = 2
derived t : int rank 5 = a + b
derived u : int rank 6 = t + a over b
drop u b
";

const PLAN_WITH_A_DROP_PRINTED: &str = "input a : int = 1
input b : int = 2
derived t : int rank 5 = (a + b)
derived u : int rank 6 = (t + a) over b
drop u b
settle
";

// Every form of line, and no settle at the end.
const LEGS: &str = "
  # a comment
  input a:text=\"x\\x09\\\"\"
  input b : int = -007
  do a
  derived n : int rank 0012 = number ( a )
  take n from a
  settle
  settle
  set a=\"\"
  turn n
  add n b
  define n = -b + len(a)*2
  define n = if not b then -3 else count() over a";

const LEGS_PRINTED: &str = "input a : text = \"x\\t\\\"\"
input b : int = -7
derived n : int rank 12 = number(a)
do a
take n from a
settle
settle
set a = \"\"
add n b
define n = (-(b) + (len(a) * 2))
define n = (if (not (b)) then -3 else count()) over a
turn n
settle
";

#[test]
fn a_canonical_document_is_printed_as_it_stands(rt: HostRuntime) -> Result<(), Fail> {
    let out = printed_again(rt.alloc(), MAKE, Mode::Plain, b"")?;
    assert_eq!(rt; out.as_slice(), MAKE.as_bytes());
    Ok(())
}

#[test]
fn formulas_are_printed_in_brackets(rt: HostRuntime) -> Result<(), Fail> {
    let out = printed_again(rt.alloc(), PLAN_WITH_A_DROP, Mode::Plain, b"")?;
    assert_eq!(rt; out.as_slice(), PLAN_WITH_A_DROP_PRINTED.as_bytes());
    Ok(())
}

#[test]
fn step_lines_stand_behind_the_changes(rt: HostRuntime) -> Result<(), Fail> {
    let out = printed_again(rt.alloc(), LEGS, Mode::Step, b"")?;
    assert_eq!(rt; out.as_slice(), LEGS_PRINTED.as_bytes());
    Ok(())
}

#[test]
fn the_document_stands_behind_what_was_there(rt: HostRuntime) -> Result<(), Fail> {
    let out = printed_again(rt.alloc(), "input a : int = 1", Mode::Plain, b"%%\n")?;
    assert_eq!(rt;
        out.as_slice(),
        b"%%\ninput a : int = 1\nsettle\n".as_slice()
    );
    Ok(())
}
