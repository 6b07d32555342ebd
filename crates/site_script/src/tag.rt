//! Tags as words spell them, in eight hexadecimal digits.

ghost use Rattle.std.specs.Prelude.{◌≡◌, ◌<◌, IfSome};
ghost use Rattle.site_script.specs.Names.{digit_of as digit_of_byte, byte_from, tag_in as tag_in_word};

/// The number of a hexadecimal digit, in either letter case.
#[tactic(auto, unfolding(crate::specs::Names::digit_of))]
fn digit_of(byte: u8) -> Option<u8>
    ensures digit { result ≡ digit_of_byte byte }
    ensures small { IfSome result (λ digit. digit < 16) }
{
    match byte {
        b'0'..=b'9' => Some(byte - b'0'),
        b'A'..=b'F' => Some(byte - b'A' + 10),
        b'a'..=b'f' => Some(byte - b'a' + 10),
        _ => None,
    }
}

/// The byte of two digits.
fn byte_of(high: u8, low: u8) -> Option<u8>
    ensures { result ≡ byte_from (digit_of_byte high) (digit_of_byte low) }
{
    let high = digit_of(high)?;
    let low = digit_of(low)?;
    Some(16 * high + low)
}

/// The tag that a word spells, group first.
pub fn tag_in(word: &[u8]) -> Option<u32>
    ensures { result ≡ tag_in_word word.now }
{
    match word {
        [a, b, c, d, e, f, g, h] => {
            let first = byte_of(*a, *b)?;
            let second = byte_of(*c, *d)?;
            let third = byte_of(*e, *f)?;
            let fourth = byte_of(*g, *h)?;
            Some(u32::from_be_bytes([first, second, third, fourth]))
        }
        _ => None,
    }
}
