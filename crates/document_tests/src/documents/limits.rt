// The limits of services, dependencies, expressions, changes and legs, on both sides.
use crate::documents::{answer, others};
use std::alloc::{AllocError, Global};
use std::test::Fail;
use svc_text::Mode;

// So many lines, where one line is the same as another.
fn lines(alloc: Global, line: &str, count: usize) -> Result<String, AllocError> {
    let mut text = String::new(alloc);
    for _ in 0..count {
        text.push_str(line)?;
    }
    Ok(text)
}

// An input and derived services of the ranks from 1 on, each over the one before.
fn chain(alloc: Global, count: u32) -> Result<String, AllocError> {
    let mut text = String::new(alloc);
    text.push_str("input s0 : int = 1\n")?;
    for k in 1..count {
        let before = k - 1;
        let line = format!(in alloc; "derived s{k} : int rank {k} = s{before} + 1\n")?;
        text.push_str(line.as_str())?;
    }
    Ok(text)
}

// So many inputs.
fn inputs(alloc: Global, count: u32) -> Result<String, AllocError> {
    let mut text = String::new(alloc);
    for k in 0..count {
        let line = format!(in alloc; "input s{k} : int = 1\n")?;
        text.push_str(line.as_str())?;
    }
    Ok(text)
}

// The names of so many inputs, with commas between.
fn names(alloc: Global, count: u32) -> Result<String, AllocError> {
    let mut text = String::new(alloc);
    text.push_str("s0")?;
    for k in 1..count {
        let name = format!(in alloc; ", s{k}")?;
        text.push_str(name.as_str())?;
    }
    Ok(text)
}

#[test]
fn services_are_counted(rt: HostRuntime) -> Result<(), Fail> {
    let front = chain(rt.alloc(), 64)?;
    let rows = [
        ("", "64,64,0;"),
        ("derived s64 : int rank 64 = s63", "65 E06"),
        ("derived s64 : int rank 0 = q", "65 E06"),
        ("derived s63 : int rank 63 = s62", "65 E05"),
        ("input s64 : int = \"1\"", "65 E06"),
        ("set s0 = 2", "64,65,0;"),
    ];
    let wrong = others(rt.alloc(), front.as_str(), rows.as_slice(), Mode::Plain)?;
    assert_eq!(rt; wrong.as_str(), "");
    Ok(())
}

#[test]
fn dependencies_are_counted(rt: HostRuntime) -> Result<(), Fail> {
    let alloc = rt.alloc();
    let front = inputs(alloc, 18)?;
    let sixteen = names(alloc, 16)?;
    let seventeen = names(alloc, 17)?;
    let rows = [
        (
            format!(in alloc; "derived d : int rank 1 = sum() over {sixteen}")?,
            "19,19,0;",
        ),
        (
            format!(in alloc; "derived d : int rank 1 = sum() over {seventeen}")?,
            "19 E11",
        ),
        (
            format!(in alloc; "derived d : int rank 1 = s16 + s17 over {sixteen}")?,
            "19 E11",
        ),
        (
            format!(in alloc; "derived d : int rank 1 = sum() over {sixteen}, s0")?,
            "19 E11",
        ),
        (
            format!(in alloc; "derived d : text rank 1 = sum() over {seventeen}")?,
            "19 E10",
        ),
        (
            format!(in alloc; "derived d : int rank 1 = sum() over {sixteen}\nadd d s16")?,
            "20 E11",
        ),
        (
            format!(in alloc; "derived d : int rank 1 = sum() over {sixteen}\nadd d s15")?,
            "20 E15",
        ),
        (
            format!(in alloc;
                "derived d : int rank 1 = sum() over {sixteen}\ndrop d s0\nadd d s16"
            )?,
            "19,21,0;",
        ),
    ];
    for (behind, expected) in &rows {
        let rows = [(behind.as_str(), *expected)];
        let wrong = others(rt.alloc(), front.as_str(), rows.as_slice(), Mode::Plain)?;
        assert_eq!(rt; wrong.as_str(), "");
    }
    Ok(())
}

#[test]
fn expressions_are_measured(rt: HostRuntime) -> Result<(), Fail> {
    let alloc = rt.alloc();
    let rows = [
        (31, "x", "2,2,0;"),
        (32, "x", "2 E12"),
        // No name counts in an expression that is too large, but the rank does.
        (32, "q", "2 E12"),
        (65, "x", "2 E04"),
    ];
    for (count, name, expected) in rows {
        let nots = lines(alloc, "not ", count)?;
        let line = format!(in alloc; "derived d : int rank 1 = {nots}{name}")?;
        let rows = [(line.as_str(), expected)];
        let wrong = others(
            rt.alloc(),
            "input x : int = 1\n",
            rows.as_slice(),
            Mode::Plain,
        )?;
        assert_eq!(rt; wrong.as_str(), "");
    }
    let nots = lines(alloc, "not ", 32)?;
    let rows = [
        (
            format!(in alloc; "derived x : int rank 1 = {nots}x")?,
            "2 E05",
        ),
        (
            format!(in alloc; "derived d : int rank 0 = {nots}x")?,
            "2 E07",
        ),
        (format!(in alloc; "define x = {nots}x")?, "2 E12"),
        (format!(in alloc; "define q = {nots}x")?, "2 E12"),
    ];
    for (line, expected) in &rows {
        let rows = [(line.as_str(), *expected)];
        let wrong = others(
            rt.alloc(),
            "input x : int = 1\n",
            rows.as_slice(),
            Mode::Plain,
        )?;
        assert_eq!(rt; wrong.as_str(), "");
    }
    Ok(())
}

#[test]
fn nodes_are_counted(rt: HostRuntime) -> Result<(), Fail> {
    let alloc = rt.alloc();
    // Four groups of sixteen names have 127 nodes.
    let fifteen = lines(alloc, "x + ", 15)?;
    let group = format!(in alloc; "({fifteen}x)")?;
    let rows = [
        (
            format!(in alloc; "{group} + {group} + {group} + {group}")?,
            "2,2,0;",
        ),
        (
            format!(in alloc; "{group} + {group} + {group} + not {group}")?,
            "2 E04",
        ),
        (
            format!(in alloc; "{group} + {group} + {group} - - {group}")?,
            "2,2,0;",
        ),
        (
            format!(in alloc; "{group} + {group} - - {group} - - {group}")?,
            "2 E12",
        ),
    ];
    for (expr, expected) in &rows {
        let line = format!(in alloc; "derived d : int rank 1 = {expr}")?;
        let rows = [(line.as_str(), *expected)];
        let wrong = others(
            rt.alloc(),
            "input x : int = 1\n",
            rows.as_slice(),
            Mode::Plain,
        )?;
        assert_eq!(rt; wrong.as_str(), "");
    }
    Ok(())
}

#[test]
fn changes_are_counted(rt: HostRuntime) -> Result<(), Fail> {
    let alloc = rt.alloc();
    let sets = lines(alloc, "set x = 1\n", 1022)?;
    let front = format!(in alloc; "input x : int = 0\nderived d : int rank 1 = x\n{sets}")?;
    let rows = [
        ("", "2,1024,0;"),
        ("set x = 1024", "1025 E17"),
        ("input y : int = 1", "1025 E17"),
        ("set d = 1", "1025 E13"),
        ("do x", "2,1024,1;"),
        ("settle\nset x = 1", "2,1024,0;0,1,0;"),
    ];
    let wrong = others(rt.alloc(), front.as_str(), rows.as_slice(), Mode::Step)?;
    assert_eq!(rt; wrong.as_str(), "");
    let rows = [("do x", "1025 E18")];
    let wrong = others(rt.alloc(), front.as_str(), rows.as_slice(), Mode::Plain)?;
    assert_eq!(rt; wrong.as_str(), "");
    Ok(())
}

#[test]
fn legs_are_counted(rt: HostRuntime) -> Result<(), Fail> {
    let alloc = rt.alloc();
    let settles = lines(alloc, "settle\n", 999)?;
    let front = format!(in alloc; "input x : int = 1\n{settles}settle\n# the last\n")?;
    let rows = [
        ("settle", "1003 E19"),
        ("set x = 1", "1003 E19"),
        ("input y : int = 1", "1003 E19"),
        ("set q = 1", "1003 E08"),
        ("do x", "1003 E19"),
    ];
    let wrong = others(rt.alloc(), front.as_str(), rows.as_slice(), Mode::Step)?;
    assert_eq!(rt; wrong.as_str(), "");
    let rows = [("do x", "1003 E18")];
    let wrong = others(rt.alloc(), front.as_str(), rows.as_slice(), Mode::Plain)?;
    assert_eq!(rt; wrong.as_str(), "");
    let settles = lines(alloc, "settle\n", 1001)?;
    let answer = answer(alloc, settles.as_bytes(), Mode::Plain)?;
    assert_eq!(rt; answer.as_str(), "1001 E19");
    Ok(())
}
