// Quoted texts, read a character at a time, and runs of characters that stand for themselves as wholes.
ghost use Rattle.std.specs.Prelude.{◌≡◌, ◌<◌, ◌≤◌, ◌+◌, true, false, length, take, IfOk};
ghost use Rattle.std.specs.List.{list_all};
ghost use Rattle.std.specs.Str.{chars, IsCharBoundary, IsUtf8};
ghost use Rattle.std.specs.String.{string_bytes};
ghost use Rattle.std.specs.Fmt.{digit_glyph};
ghost use Rattle.svc_value.specs.Quoted.{any_form, is_itself, is_hexed, is_written, hex_escape};
ghost use Rattle.svc_value.specs.Reading.{Gives, may_lead, next_step, inside_at, StaysAt, Moves};

use crate::{LiteralError, MAX_TEXT_LEN, ValueText};
use memchr::memchr3;
use std::alloc::{AllocError, Global};

/// Which forms of quoted texts and numbers are read.
#[derive(Clone, Copy, Debug, PartialEq, Eq)]
pub(crate) enum Form {
    /// Every form of a literal.
    Any,
    /// The one form in which a value is printed.
    Printed,
}

/// A place in a quoted text.
#[derive(Clone, Copy)]
pub(crate) enum Inside {
    /// Before the opening quote.
    Open,
    /// Where a character begins, or the text ends.
    Plain,
    /// Behind a backslash.
    Escape,
    /// Behind `\x`.
    Hex,
    /// Behind `\x` and its first digit.
    Low(char),
}

/// What a character does there.
#[derive(Clone, Copy)]
pub(crate) enum Step {
    /// It closes the text.
    Close,
    /// It cannot stand there.
    Stop,
    /// It leads on.
    Enter(Inside),
    /// It ends what stands for this character.
    Give(char),
}

/// The quoted text that `text` begins with, in a form of `form`, and how many bytes it is with its quotes.
pub(crate) fn read_quoted(
    alloc: Global,
    text: &str,
    form: Form,
) -> Result<(ValueText, usize), LiteralError>
    ensures { Gives (λ read. (read.0, read.1)) result (inside_at form (chars text.now) Inside.Open MAX_TEXT_LEN) }
{
    let mut words = String::with_capacity(alloc, text.len().min(MAX_TEXT_LEN))?;
    let mut inside = Inside::Open;
    let mut at = 0;
    let mut rest = text.chars();
    while let Some(char) = rest.next() {
        match next_step(form, inside, MAX_TEXT_LEN - words.len(), char) {
            Step::Close => return Ok((ValueText::from_string(words), at + 1)),
            Step::Stop => return Err(LiteralError::Bad { place: at }),
            Step::Enter(next) => inside = next,
            Step::Give(given) => {
                words.push(given)?;
                inside = Inside::Plain;
            }
        }
        at += char.len_utf8();
        let (left, count) = behind_run(form, inside, &mut words, rest.as_str())?;
        at += count;
        rest = left.chars();
    }
    Err(LiteralError::Bad { place: at })
}

// Moves the characters at the front that stand for themselves at this place to the end of `words`, where all of them
// fit; what is behind them, and how many bytes they are.
fn behind_run<'a>(
    form: Form,
    inside: Inside,
    words: &mut String,
    text: &'a str,
) -> Result<(&'a str, usize), AllocError>
    ensures moved { IfOk result (λ x. Moves form inside (string_bytes words.old) (string_bytes words.new) text.now x.0.now x.1) }
    ensures counted { IfOk result (λ x. x.1 + length x.0.now ≡ length text.now) }
{
    let room = MAX_TEXT_LEN.saturating_sub(words.len());
    let count = run_len(form, inside, room, text.as_bytes());
    let (run, left) = text.split_at(count);
    words.push_str(run)?;
    Ok((left, count))
}

// How many bytes at the front stand for themselves at this place; 0 where there is no `room` for them.
fn run_len(form: Form, inside: Inside, room: usize, text: &[u8]) -> usize
    requires { IsUtf8 text.now }
    ensures fits { result ≤ room }
    ensures boundary { IsCharBoundary text.now result }
    ensures stays { StaysAt form inside (take result text.now) }
{
    match inside {
        Inside::Plain => match form {
            Form::Any => {
                let len = plain_len(text);
                if len <= room { len } else { 0 }
            }
            Form::Printed => 0,
        },
        Inside::Open | Inside::Escape | Inside::Hex | Inside::Low(_) => 0,
    }
}

// How many bytes stand before the first that does not stand for itself in a literal.
fn plain_len(text: &[u8]) -> usize
    ensures boundary { IsCharBoundary text.now result }
    ensures plain { list_all (is_itself any_form) (take result text.now) ≡ true }
{
    match memchr3(b'"', b'\\', b'\n', text) {
        Some(len) => len,
        None => text.len(),
    }
}

// What a character does at a place, where the meaning may have `room` bytes more.
fn next_step(form: Form, inside: Inside, room: usize, char: char) -> Step
    ensures { result ≡ next_step form inside room char }
{
    match inside {
        Inside::Open => match char {
            '"' => Step::Enter(Inside::Plain),
            _ => Step::Stop,
        },
        Inside::Plain => plain_step(form, room, char),
        Inside::Escape => match char {
            'x' => Step::Enter(Inside::Hex),
            '"' => Step::Give('"'),
            '\\' => Step::Give('\\'),
            'n' => Step::Give('\n'),
            't' => Step::Give('\t'),
            _ => Step::Stop,
        },
        Inside::Hex => {
            if may_lead(form, char) {
                Step::Enter(Inside::Low(char))
            } else {
                Step::Stop
            }
        }
        Inside::Low(high) => match hex_escape(form, high, char) {
            Some(given) => Step::Give(given),
            None => Step::Stop,
        },
    }
}

fn plain_step(form: Form, room: usize, char: char) -> Step
    ensures { result ≡ next_step form Inside.Plain room char }
{
    if char == '"' {
        Step::Close
    } else if room < char.len_utf8() {
        Step::Stop
    } else if char == '\\' {
        Step::Enter(Inside::Escape)
    } else if is_itself(form, char) {
        Step::Give(char)
    } else {
        Step::Stop
    }
}

fn is_itself(form: Form, char: char) -> bool
    ensures { result ≡ is_itself form char }
{
    match form {
        Form::Any => !(char == '"' || char == '\\' || char == '\n'),
        Form::Printed => !((char as u32) < 32 || char == '\x7F' || char == '"' || char == '\\'),
    }
}

// Whether a character may stand behind `\x`.
fn may_lead(form: Form, char: char) -> bool
    ensures { result ≡ may_lead form char }
{
    match form {
        Form::Any => char.is_digit(8),
        Form::Printed => char == '0' || char == '1' || char == '7',
    }
}

// What `\x` and two digits stand for.
fn hex_escape(form: Form, high: char, low: char) -> Option<char>
    ensures { result ≡ hex_escape form high low }
{
    let first = high.to_digit(8)?;
    let second = low.to_digit(16)?;
    let byte = (first * 16 + second) as u8;
    if is_written(form, byte, high, low) {
        Some(char::from(byte))
    } else {
        None
    }
}

// Whether a byte may be written with these digits.
fn is_written(form: Form, byte: u8, high: char, low: char) -> bool
    ensures { result ≡ is_written form byte high low }
{
    match form {
        Form::Any => true,
        Form::Printed => is_hexed(byte)
            && hex_digit(byte / 16) == high
            && hex_digit(byte % 16) == low,
    }
}

fn is_hexed(byte: u8) -> bool
    ensures { result ≡ is_hexed byte }
{
    (byte < 32 && !(byte == b'\t' || byte == b'\n')) || byte == 127
}

// The digit in lower case.
fn hex_digit(digit: u8) -> char
    requires { digit < 16 }
    ensures { result ≡ digit_glyph false digit }
{
    char::from(if digit < 10 {
        b'0' + digit
    } else {
        b'a' + (digit - 10)
    })
}
