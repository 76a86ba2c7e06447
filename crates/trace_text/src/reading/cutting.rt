// Where the bytes of a line are cut.
ghost use Rattle.trace_text.specs.Inside.Cutting.{CutsAtFirst, CutsAtLast, CutsAtWord, Lacks};

// The bytes before and behind the first such byte.
pub(crate) fn cut_at_first(bytes: &[u8], stop: u8) -> Option<(&[u8], &[u8])>
    ensures { CutsAtFirst stop bytes.now result }
{
    for at in 0..bytes.len() {
        if bytes[at] == stop {
            return Some((&bytes[..at], &bytes[at + 1..]));
        }
    }
    None
}

// The bytes before and behind the last such byte.
fn cut_at_last(bytes: &[u8], stop: u8) -> Option<(&[u8], &[u8])>
    ensures { CutsAtLast stop bytes.now result }
{
    let mut at = bytes.len();
    while at > 0 {
        at -= 1;
        if bytes[at] == stop {
            return Some((&bytes[..at], &bytes[at + 1..]));
        }
    }
    None
}

// The bytes before and behind `word`, which stands between the last two blanks.
pub(crate) fn cut_at_word<'a>(bytes: &'a [u8], word: &[u8]) -> Option<(&'a [u8], &'a [u8])>
    requires { Lacks 32 word.now }
    ensures { CutsAtWord word.now bytes.now result }
{
    let Some((front, last)) = cut_at_last(bytes, b' ') else {
        return None;
    };
    let Some((before, between)) = cut_at_last(front, b' ') else {
        return None;
    };
    if between != word {
        return None;
    }
    Some((before, last))
}
