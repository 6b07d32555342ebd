//! Dates and times, and ranges of them (PS3.4, section C.2.2.2.5; PS3.5, section 6.2).

ghost use Rattle.std.specs.Prelude.{◌≡◌, ◌≤◌, ◌++◌, length, take, drop, position, IsTrue, IfSome, ◌<◌};
ghost use Rattle.key_matching.specs.Range.{is_digit as is_digit_in, are_digits as are_digits_in};
ghost use Rattle.key_matching.specs.Range.{is_whole_time as is_whole_time_in};
ghost use Rattle.key_matching.specs.Range.{is_fraction_time as is_fraction_time_in, is_moment as is_moment_in};
ghost use Rattle.key_matching.specs.Range.{midnight, whole, is_no_later as is_no_later_in, is_dash, before, behind};
ghost use Rattle.key_matching.specs.Range.{first_end, last_end, is_end as is_end_in, is_range as is_range_in};
ghost use Rattle.key_matching.specs.Range.{is_from as is_from_in, is_until as is_until_in};
ghost use Rattle.key_matching.specs.Range.{is_in_range as is_in_range_in};

/// What a key of dates or of times is about.
#[derive(Clone, Copy, Debug, PartialEq, Eq)]
pub enum Moment {
    /// 8 digits (VR DA).
    Date,
    /// 2, 4 or 6 digits, or 6 digits, a full stop and 1 to 6 digits (VR TM).
    Time,
}

fn is_digit(byte: u8) -> bool
    ensures { result ≡ is_digit_in byte }
{
    byte.is_ascii_digit()
}

fn are_digits(text: &[u8]) -> bool
    ensures { result ≡ are_digits_in text.now }
{
    text.iter().all(|byte| is_digit(*byte))
}

fn is_whole_time(text: &[u8]) -> bool
    ensures { result ≡ is_whole_time_in text.now }
{
    (text.len() == 2 || text.len() == 4 || text.len() == 6) && are_digits(text)
}

fn is_fraction_time(text: &[u8]) -> bool
    ensures { result ≡ is_fraction_time_in text.now }
{
    if text.len() < 8 || text.len() > 13 {
        return false;
    }
    are_digits(&text[..6]) && text[6] == b'.' && are_digits(&text[7..])
}

/// Whether a text is a date or a time.
fn is_moment(moment: Moment, text: &[u8]) -> bool
    ensures form { result ≡ is_moment_in moment text.now }
    ensures short { IsTrue result → length text.now ≤ 13 }
{
    match moment {
        Moment::Date => text.len() == 8 && are_digits(text),
        Moment::Time => is_whole_time(text) || is_fraction_time(text),
    }
}

/// A time as HHMMSS.FFFFFF.
fn padded_time(text: &[u8]) -> [u8; 13]
    requires { length text.now ≤ 13 }
    ensures { result ≡ text.now ++ drop (length text.now) midnight }
{
    let mut padded = *b"000000.000000";
    for (i, byte) in text.iter().enumerate() {
        padded[i] = *byte;
    }
    padded
}

/// Whether one date or time is no later than another.
fn is_no_later(moment: Moment, a: &[u8], b: &[u8]) -> bool
    requires first { length a.now ≤ 13 }
    requires second { length b.now ≤ 13 }
    ensures { result ≡ is_no_later_in moment a.now b.now }
{
    match moment {
        Moment::Date => a.cmp(b).is_le(),
        Moment::Time => {
            let a = padded_time(a);
            let b = padded_time(b);
            a.as_slice().cmp(b.as_slice()).is_le()
        }
    }
}

/// Where the first dash stands.
fn dash(key: &[u8]) -> Option<usize>
    ensures place { result ≡ position is_dash key.now }
    ensures within { IfSome result (λ at. at < length key.now) }
{
    key.iter().position(|byte| *byte == b'-')
}

/// What stands before and behind the first dash of a key; one date or time is both ends.
pub fn ends(key: &[u8]) -> (&[u8], &[u8])
    ensures first { result.0.now ≡ first_end key.now }
    ensures last { result.1.now ≡ last_end key.now }
{
    match dash(key) {
        None => (key, key),
        Some(at) => (&key[..at], &key[at + 1..]),
    }
}

fn is_end(moment: Moment, text: &[u8]) -> bool
    ensures { result ≡ is_end_in moment text.now }
{
    text.is_empty() || is_moment(moment, text)
}

/// Whether a key is one date or time, or a range of them, of which one end may be left open.
pub(crate) fn is_range(moment: Moment, key: &[u8]) -> bool
    ensures { result ≡ is_range_in moment key.now }
{
    let (first, last) = ends(key);
    is_end(moment, first) && is_end(moment, last) && !(first.is_empty() && last.is_empty())
}

fn is_from(moment: Moment, first: &[u8], value: &[u8]) -> bool
    requires { length value.now ≤ 13 }
    ensures { result ≡ is_from_in moment first.now value.now }
{
    first.is_empty() || (is_moment(moment, first) && is_no_later(moment, first, value))
}

fn is_until(moment: Moment, last: &[u8], value: &[u8]) -> bool
    requires { length value.now ≤ 13 }
    ensures { result ≡ is_until_in moment last.now value.now }
{
    last.is_empty() || (is_moment(moment, last) && is_no_later(moment, value, last))
}

/// Whether a value is a date or a time and lies in a range, both ends included.
pub(crate) fn is_in_range(moment: Moment, key: &[u8], value: &[u8]) -> bool
    ensures { result ≡ is_in_range_in moment key.now value.now }
{
    let (first, last) = ends(key);
    is_moment(moment, value) && is_from(moment, first, value) && is_until(moment, last, value)
}
