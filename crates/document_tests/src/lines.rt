// What single lines say.
use std::alloc::{AllocError, Global};
use std::test::Fail;

mod showing;

use showing::shown;

#[test]
fn lines_of_words_are_read(rt: HostRuntime) -> Result<(), Fail> {
    let alloc = rt.alloc();
    let rows = [
        // Nothing, blanks, and comments.
        ("", "silence"),
        (" \t\r", "silence"),
        ("# settle", "silence"),
        ("\t#", "silence"),
        // A line of each kind without a literal and without an expression.
        ("settle", "settle"),
        (" settle\r", "settle"),
        ("add r m", "add r m"),
        ("drop\tr\tm\r", "drop r m"),
        ("do n", "do n"),
        ("take r from s", "take r s"),
        ("turn n", "turn n"),
        // A name of 32 bytes, and names that are almost keywords.
        (
            "do a23456789_123456789_123456789_12",
            "do a23456789_123456789_123456789_12",
        ),
        ("do settle1", "do settle1"),
        ("do Over", "do Over"),
    ];
    for (line, expected) in rows {
        let answer = shown(alloc, line.as_bytes())?;
        assert_eq!(rt; answer.as_str(), expected, "in {line:?}");
    }
    Ok(())
}

#[test]
fn other_words_are_refused(rt: HostRuntime) -> Result<(), Fail> {
    let alloc = rt.alloc();
    let lines = [
        // A word too many or too few.
        "settle now",
        "settle # now",
        "add r",
        "add r m n",
        "add r, m",
        "do",
        "do n m",
        "take r s",
        "take r from",
        "take from s",
        "turn",
        // A word that begins no line.
        "walk n",
        "n",
        "= n",
        "Settle",
        "from a",
        "over x",
        // A name of 33 bytes, and words that are none.
        "do a23456789_123456789_123456789_123",
        "do _n",
        "do 1n",
        "do 1",
    ];
    for line in lines {
        let answer = shown(alloc, line.as_bytes())?;
        assert_eq!(rt; answer.as_str(), "E04", "in {line:?}");
    }
    Ok(())
}

#[test]
fn keywords_are_no_names(rt: HostRuntime) -> Result<(), Fail> {
    let alloc = rt.alloc();
    let words = [
        "input", "derived", "set", "add", "drop", "settle", "do", "take", "turn", "define", "from",
        "over", "rank", "int", "text", "if", "then", "else", "and", "or", "not", "len", "number",
        "sum", "count", "min", "max",
    ];
    for word in words {
        let line = format!(in alloc; "do {word}")?;
        let answer = shown(alloc, line.as_str().as_bytes())?;
        assert_eq!(rt; answer.as_str(), "E04", "in {word:?}");
    }
    Ok(())
}

#[test]
fn literals_are_read(rt: HostRuntime) -> Result<(), Fail> {
    let alloc = rt.alloc();
    let rows = [
        ("set a = \"x\"", "set a \"x\""),
        ("set a=\"\"", "set a \"\""),
        ("set a = \"é\\\"\\\\\\x41\"", "set a \"é\\\"\\\\A\""),
        ("set a=-9223372036854775808", "set a -9223372036854775808"),
        ("set a = 9223372036854775807", "set a 9223372036854775807"),
        ("set a = 007", "set a 7"),
        ("set a = -0", "set a 0"),
        ("input a : int = 3", "input a Int 3"),
        ("input\ta:text=\"b\"\r", "input a Text \"b\""),
        // The type of a literal is judged later.
        ("input a : text = 3", "input a Text 3"),
    ];
    for (line, expected) in rows {
        let answer = shown(alloc, line.as_bytes())?;
        assert_eq!(rt; answer.as_str(), expected, "in {line:?}");
    }
    Ok(())
}

#[test]
fn other_literals_are_refused(rt: HostRuntime) -> Result<(), Fail> {
    let alloc = rt.alloc();
    let lines = [
        // One past each end, and past the numbers that are told apart.
        "set a = 9223372036854775808",
        "set a = -9223372036854775809",
        "set a = 18446744073709551617",
        // Other tokens, or none.
        "set a =",
        "set a = - 1",
        "set a = 1 2",
        "set a = 1a",
        "set a = b",
        "set a = (1)",
        "set a 1",
        "set 1 = 1",
        "input a : number = 1",
        "input a = 1",
        "input : int = 1",
        // Texts without an end, with an escape that is none, and past 7f.
        "set a = \"x",
        "set a = \"\\q\"",
        "set a = \"\\x80\"",
    ];
    for line in lines {
        let answer = shown(alloc, line.as_bytes())?;
        assert_eq!(rt; answer.as_str(), "E04", "in {line:?}");
    }
    Ok(())
}

#[test]
fn expressions_are_read(rt: HostRuntime) -> Result<(), Fail> {
    let alloc = rt.alloc();
    let rows = [
        ("derived d : int rank 1 = a + b", "derived d Int 1 (a + b)"),
        (
            "derived d:text rank 01=a++\"b\" over c",
            "derived d Text 1 (a ++ \"b\") | c",
        ),
        (
            "define n = count() + y over x",
            "define n (count() + y) | x",
        ),
        ("define n = n over x, n,y", "define n n | x | n | y"),
        // A rank of any size stands for itself, or for the greatest that is told apart.
        ("derived d : int rank 0 = 1", "derived d Int 0 1"),
        (
            "derived d : int rank 18446744073709551616 = 1",
            "derived d Int 18446744073709551615 1",
        ),
    ];
    for (line, expected) in rows {
        let answer = shown(alloc, line.as_bytes())?;
        assert_eq!(rt; answer.as_str(), expected, "in {line:?}");
    }
    Ok(())
}

#[test]
fn other_expressions_and_members_are_refused(rt: HostRuntime) -> Result<(), Fail> {
    let alloc = rt.alloc();
    let lines = [
        // Members that are none.
        "define n = x over",
        "define n = x over a,",
        "define n = x over , a",
        "define n = x over a b",
        "define n = x over a over b",
        "define n = x over 1",
        "define n = x over (a)",
        // Expressions that are none.
        "define n =",
        "define n = over x",
        "define n = x +",
        "define n = x y",
        "define n = x < y < z",
        // Another front.
        "derived d : int rank = 1",
        "derived d : int rank -1 = 1",
        "derived d : int = 1",
        "derived d rank 1 = 1",
        "define n x",
    ];
    for line in lines {
        let answer = shown(alloc, line.as_bytes())?;
        assert_eq!(rt; answer.as_str(), "E04", "in {line:?}");
    }
    Ok(())
}

// A line with a part that stands in it so many times.
fn repeated(
    alloc: Global,
    front: &str,
    part: &str,
    count: usize,
    behind: &str,
) -> Result<String, AllocError> {
    let mut line = String::from_str(alloc, front)?;
    for _ in 0..count {
        line.push_str(part)?;
    }
    line.push_str(behind)?;
    Ok(line)
}

#[test]
fn limits_of_lines_are_kept(rt: HostRuntime) -> Result<(), Fail> {
    let alloc = rt.alloc();
    let rows = [
        // A comment of 4,096 bytes, and of one more.
        ("#", "a", 4095, "", "silence"),
        ("#", "a", 4096, "", "E02"),
        ("settle", " ", 4090, "", "settle"),
        ("settle", " ", 4091, "", "E02"),
        // Depths of 32 and 33, and 64 and 65 levels of the text.
        ("define n = ", "not ", 32, "x", "define n too large"),
        ("define n = ", "not ", 64, "x", "define n too large"),
        ("define n = ", "not ", 65, "x", "E04"),
        ("define n = ", "not ", 32, "x over y", "define n too large"),
        ("define n = ", "not ", 32, "x over y,", "E04"),
        // A text of 257 bytes.
        ("set t = \"", "a", 257, "\"", "E04"),
    ];
    for (front, part, count, behind, expected) in rows {
        let line = repeated(alloc, front, part, count, behind)?;
        let answer = shown(alloc, line.as_str().as_bytes())?;
        assert_eq!(rt; answer.as_str(), expected, "in {front:?} {count}");
    }
    Ok(())
}

#[test]
fn bytes_that_are_no_text_are_refused(rt: HostRuntime) -> Result<(), Fail> {
    let alloc = rt.alloc();
    let mut long = vec![in alloc; b'#'; 4095]?;
    long.push(0xff)?;
    assert_eq!(rt; shown(alloc, &long)?.as_str(), "E03");
    long.push(0xff)?;
    assert_eq!(rt; shown(alloc, &long)?.as_str(), "E02");
    assert_eq!(rt; shown(alloc, b"# a\xff".as_slice())?.as_str(), "E03");
    assert_eq!(rt; shown(alloc, b"walk \xc3".as_slice())?.as_str(), "E03");
    Ok(())
}
