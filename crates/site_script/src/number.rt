//! Numbers in decimal digits.

ghost use Rattle.std.specs.Prelude.{◌≡◌};
ghost use Rattle.site_script.specs.Numbers.{with_digit as with_digit_of, number_in as number_in_word};

/// A number with one digit more behind it, where it fits.
fn with_digit(number: u64, digit: u8) -> Option<u64>
    ensures { result ≡ with_digit_of number digit }
{
    if !digit.is_ascii_digit() {
        return None;
    }
    number.checked_mul(10)?.checked_add(u64::from(digit - b'0'))
}

/// The number that a word spells in decimal digits, where it fits. It may begin with zeros.
pub fn number_in(word: &[u8]) -> Option<u64>
    ensures { result ≡ number_in_word word.now }
{
    if word.is_empty() {
        return None;
    }
    let mut number = 0;
    for digit in word {
        match with_digit(number, *digit) {
            Some(next) => number = next,
            None => return None,
        }
    }
    Some(number)
}
