// The numbers of a command.
ghost use Rattle.std.specs.Prelude.{◌≡◌};
ghost use Rattle.command_words.specs.Words.{number_behind, number_value};

/// The most that a number of a command is.
pub(crate) const MAX_NUMBER: u32 = 65_536;

/// The number that a word is, in digits alone and without a leading zero; `None` for all other words.
pub(crate) fn number_of(word: &str) -> Option<u32>
    ensures { result ≡ number_value word.now }
{
    match word.as_bytes() {
        [] => None,
        [b'0', _, ..] => None,
        digits => number_behind(digits),
    }
}

// The number that the digits spell.
fn number_behind(digits: &[u8]) -> Option<u32>
    ensures { result ≡ number_behind 0 digits.now }
{
    let mut number = 0u32;
    for digit in digits {
        if !digit.is_ascii_digit() {
            return None;
        }
        number = number * 10 + u32::from(*digit - b'0');
        if number > MAX_NUMBER {
            return None;
        }
    }
    Some(number)
}
