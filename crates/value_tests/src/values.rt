// Cases of the readers and writers of values, and one of each stream.
use std::alloc::Global;
use std::test::Fail;
use svc_value::{
    Bytes, Fault, LiteralError, MemorySink, MemorySource, Sink, Source, StdSink, StdSource,
    TextError, Value, ValueError, ValueReason, ValueText, ValueType, print_value, put_value,
    read_literal, read_value, take_value,
};

// What a reader of texts answers: the text of the value that it read, or its place.
#[derive(Clone, Copy)]
enum Answer<'a> {
    Read(&'a str),
    Place(usize),
}

fn answers(
    alloc: Global,
    answer: Result<Value, LiteralError>,
    expected: Answer<'_>,
) -> Result<bool, Fail> {
    match (answer, expected) {
        (Ok(value), Answer::Read(text)) => {
            let mut out = Vec::new(alloc);
            print_value(&value, &mut out)?;
            Ok(out.as_slice() == text.as_bytes())
        }
        (Err(LiteralError::Bad { place }), Answer::Place(wanted)) => Ok(place == wanted),
        _ => Ok(false),
    }
}

const LITERALS: [(&str, Answer<'static>); 28] = [
    ("0", Answer::Read("0")),
    ("-0", Answer::Read("0")),
    ("007", Answer::Read("7")),
    ("9223372036854775807", Answer::Read("9223372036854775807")),
    ("9223372036854775808", Answer::Place(18)),
    ("-9223372036854775808", Answer::Read("-9223372036854775808")),
    ("-9223372036854775809", Answer::Place(19)),
    ("00000000000000000000012", Answer::Read("12")),
    ("", Answer::Place(0)),
    ("-", Answer::Place(1)),
    ("--1", Answer::Place(1)),
    ("+1", Answer::Place(0)),
    ("12x", Answer::Place(2)),
    ("1 ", Answer::Place(1)),
    ("!zero", Answer::Place(0)),
    (r#""""#, Answer::Read(r#""""#)),
    (r#""a\"b\\c\td\x01é""#, Answer::Read(r#""a\"b\\c\td\x01é""#)),
    (r#""\x41\x7F\n""#, Answer::Read(r#""A\x7f\n""#)),
    (r#""\x80""#, Answer::Place(3)),
    (r#""\x7g""#, Answer::Place(4)),
    (r#""\q""#, Answer::Place(2)),
    (r#""\é""#, Answer::Place(2)),
    (r#""ab"#, Answer::Place(3)),
    (r#""ab\"#, Answer::Place(4)),
    (r#""ab"c"#, Answer::Place(4)),
    ("\"a\nb\"", Answer::Place(2)),
    ("\"a\tb\"", Answer::Read(r#""a\tb""#)),
    ("\"€😀\"", Answer::Read("\"€😀\"")),
];

#[test]
fn literals(rt: HostRuntime) -> Result<(), Fail> {
    let alloc = rt.alloc();
    for (text, expected) in LITERALS {
        let met = answers(alloc, read_literal(alloc, text), expected)?;
        assert!(rt; met, "{text}");
    }
    Ok(())
}

const PRINTED: [(&str, Answer<'static>); 26] = [
    ("-9223372036854775808", Answer::Read("-9223372036854775808")),
    ("-3", Answer::Read("-3")),
    ("0", Answer::Read("0")),
    ("!overflow", Answer::Read("!overflow")),
    ("!zero", Answer::Read("!zero")),
    ("!long", Answer::Read("!long")),
    ("!number", Answer::Read("!number")),
    ("!empty", Answer::Read("!empty")),
    (r#""12x""#, Answer::Read(r#""12x""#)),
    (r#""a\"b\\c\td\x01é""#, Answer::Read(r#""a\"b\\c\td\x01é""#)),
    (r#""\x7f""#, Answer::Read(r#""\x7f""#)),
    ("00", Answer::Place(1)),
    ("-0", Answer::Place(1)),
    ("9223372036854775808", Answer::Place(18)),
    ("", Answer::Place(0)),
    ("!", Answer::Place(1)),
    ("!x", Answer::Place(1)),
    ("!zer", Answer::Place(4)),
    ("!zero!", Answer::Place(5)),
    (r#""\x41""#, Answer::Place(3)),
    (r#""\x7F""#, Answer::Place(4)),
    (r#""\x0a""#, Answer::Place(4)),
    (r#""\x0B""#, Answer::Place(4)),
    ("\"a\tb\"", Answer::Place(2)),
    (r#""ab"#, Answer::Place(3)),
    (r#""ab" "#, Answer::Place(4)),
];

#[test]
fn printed_texts(rt: HostRuntime) -> Result<(), Fail> {
    let alloc = rt.alloc();
    for (text, expected) in PRINTED {
        let met = answers(alloc, read_value(alloc, text), expected)?;
        assert!(rt; met, "{text}");
    }
    Ok(())
}

// A quoted text of this many letters, and then `end`.
fn letters(alloc: Global, count: usize, end: &str) -> Result<String, Fail> {
    let mut text = String::from_str(alloc, "\"")?;
    for _ in 0..count {
        text.push('a')?;
    }
    text.push_str(end)?;
    Ok(text)
}

const LENGTHS: [(usize, &str, Option<usize>); 6] = [
    (256, "\"", None),
    (257, "\"", Some(257)),
    (254, "é\"", None),
    (255, "é\"", Some(256)),
    (253, "€\"", None),
    (253, "😀\"", Some(254)),
];

#[test]
fn lengths(rt: HostRuntime) -> Result<(), Fail> {
    let alloc = rt.alloc();
    for (count, end, place) in LENGTHS {
        let text = letters(alloc, count, end)?;
        let refused = match read_literal(alloc, text.as_str()) {
            Err(LiteralError::Bad { place }) => Some(place),
            _ => None,
        };
        assert!(rt; refused == place, "{count} {end}");
    }
    Ok(())
}

// What `take_value` answers: the value's text and length, or a place and its reason.
#[derive(Clone, Copy)]
enum Taken<'a> {
    Value(&'a str, usize),
    Bad(usize, ValueReason),
}

fn takes(alloc: Global, bytes: &[u8], expected: Taken<'_>) -> Result<bool, Fail> {
    match (take_value(alloc, bytes), expected) {
        (Ok((value, len)), Taken::Value(text, wanted)) => {
            let mut out = Vec::new(alloc);
            print_value(&value, &mut out)?;
            let mut again = Vec::new(alloc);
            put_value(&value, &mut again)?;
            let same = len == again.len() && bytes.starts_with(again.as_slice());
            Ok(same && len == wanted && out.as_slice() == text.as_bytes())
        }
        (Err(ValueError::Bad { place, reason }), Taken::Bad(at, why)) => {
            Ok(place == at && reason == why)
        }
        _ => Ok(false),
    }
}

const LAYOUTS: [(&[u8], Taken<'static>); 20] = [
    (&[1, 0, 0, 0, 0, 0, 0, 0, 3, 9], Taken::Value("3", 9)),
    (
        &[1, 255, 255, 255, 255, 255, 255, 255, 254],
        Taken::Value("-2", 9),
    ),
    (&[2, 0, 0], Taken::Value("\"\"", 3)),
    (&[2, 0, 1, 97, 98], Taken::Value("\"a\"", 4)),
    (&[2, 0, 3, 0xE2, 0x82, 0xAC], Taken::Value("\"€\"", 6)),
    (&[3, 5], Taken::Value("!empty", 2)),
    (&[], Taken::Bad(0, ValueReason::Short)),
    (&[0], Taken::Bad(0, ValueReason::Tag)),
    (&[4, 1], Taken::Bad(0, ValueReason::Tag)),
    (&[1, 0, 0], Taken::Bad(3, ValueReason::Short)),
    (&[3], Taken::Bad(1, ValueReason::Short)),
    (&[3, 6], Taken::Bad(1, ValueReason::FaultCode)),
    (&[2, 2], Taken::Bad(1, ValueReason::Length)),
    (&[2, 1, 1], Taken::Bad(2, ValueReason::Length)),
    (&[2, 0, 2, 97], Taken::Bad(4, ValueReason::Short)),
    (&[2, 0, 1, 0xC3], Taken::Bad(3, ValueReason::Utf8)),
    (&[2, 0, 2, 0xC3], Taken::Bad(4, ValueReason::Short)),
    (
        &[2, 0, 3, 0xED, 0xA0, 0x80],
        Taken::Bad(4, ValueReason::Utf8),
    ),
    (
        &[2, 0, 4, 0xF0, 0x9F, 0x98, 0x28],
        Taken::Bad(6, ValueReason::Utf8),
    ),
    (&[2, 0, 2, 97, 0xFF], Taken::Bad(4, ValueReason::Utf8)),
];

#[test]
fn layouts(rt: HostRuntime) -> Result<(), Fail> {
    let alloc = rt.alloc();
    for (bytes, expected) in LAYOUTS {
        let met = takes(alloc, bytes, expected)?;
        assert!(rt; met, "{bytes:?}");
    }
    Ok(())
}

#[test]
fn values(rt: HostRuntime) -> Result<(), Fail> {
    let alloc = rt.alloc();
    let text = Value::Words(ValueText::new(alloc, "ok")?);
    let same = text.copy()?;
    assert!(rt; matches!(&same, Value::Words(words) if words.as_str() == "ok"));
    assert!(rt; same.has_type(ValueType::Text) && !same.has_type(ValueType::Int));
    assert!(rt; Value::Bad(Fault::Zero).has_type(ValueType::Text));
    let long = letters(alloc, 256, "")?;
    let refused = ValueText::new(alloc, long.as_str());
    assert!(rt; matches!(refused, Err(TextError::TooLong { len: 257 })));
    Ok(())
}

// Reads of two bytes at a time, as the counts that they gave; 9 stands for a failed one.
fn reads<S: Source>(source: &mut S) -> [usize; 4] {
    let mut counts = [0; 4];
    let mut buffer = [0; 2];
    for count in counts.iter_mut() {
        *count = source.read(&mut buffer).unwrap_or(9);
    }
    counts
}

// Writes of three bytes, as the counts that they took; 9 stands for a failed one.
fn writes<K: Sink>(sink: &mut K) -> [usize; 4] {
    let mut counts = [0; 4];
    for count in counts.iter_mut() {
        *count = sink.write(b"abc").unwrap_or(9);
    }
    counts
}

#[test]
fn streams(rt: HostRuntime) -> Result<(), Fail> {
    let alloc = rt.alloc();
    let bytes = Bytes::from_slice(alloc, b"xyz")?;
    let mut source = MemorySource::new(bytes, 8, Vec::from_slice(alloc, &[2])?);
    assert!(rt; reads(&mut source) == [2, 9, 1, 0]);
    let mut sink = MemorySink::new(alloc, 5, 2, Vec::from_slice(alloc, &[2])?)?;
    assert!(rt; writes(&mut sink) == [2, 9, 2, 1]);
    assert!(rt; sink.held() == b"ababa".as_slice());
    assert!(rt; reads(&mut StdSource::new(b"xyz".as_slice())) == [2, 1, 0, 0]);
    let mut room = [0; 4];
    assert!(rt; writes(&mut StdSink::new(room.as_mut_slice())) == [3, 1, 9, 9]);
    Ok(())
}
