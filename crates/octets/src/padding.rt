//! What pads values to even length (PS3.5, section 6.2).

ghost use Rattle.std.specs.Prelude.{◌≡◌};
ghost use Rattle.octets.specs.Padding.{is_padding, without_padding as bare_of, trimmed as trimmed_of};

/// Whether a byte pads a value: 00 or a space.
fn is_pad(byte: u8) -> bool
    ensures { result ≡ is_padding byte }
{
    byte == 0x00 || byte == b' '
}

/// A value without the 00 and 20 bytes at its end.
pub fn without_padding(bytes: &[u8]) -> &[u8]
    ensures { result.now ≡ bare_of bytes.now }
{
    let mut end = bytes.len();
    while end > 0 && is_pad(bytes[end - 1]) {
        end -= 1;
    }
    &bytes[..end]
}

/// A value without the 00 and 20 bytes at its end, and then without the 20 bytes at its front.
pub fn trimmed(bytes: &[u8]) -> &[u8]
    ensures { result.now ≡ trimmed_of bytes.now }
{
    let kept = without_padding(bytes);
    let mut start = 0;
    while start < kept.len() && kept[start] == b' ' {
        start += 1;
    }
    &kept[start..]
}
