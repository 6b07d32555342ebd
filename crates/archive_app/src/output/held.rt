//! What the file says that tells how many operations an archive has held.

ghost use Rattle.std.specs.Prelude.{◌≡◌, ◌↔◌, ◌<◌, ◌-◌, ◌^◌, ◌++◌, ℕ, List, IfSome, IsSome, IsTrue, None, Some};
ghost use Rattle.std.specs.Prelude.{unwrap_or};
ghost use Rattle.std.specs.Fmt.{decimal};
ghost use Rattle.archive_server.specs.Held.{held_text};

/// The number that some digits are.
fn number_of(digits: &str) -> Option<u64>
    ensures { (n : ℕ) → n < 2 ^ 64 → digits.now ≡ decimal n → result ≡ Some n }
{
    match digits.parse::<u64>() {
        Ok(number) => Some(number),
        Err(_error) => None,
    }
}

/// The number of two lines that are one.
fn held_between(first: &str, second: &str) -> Option<u64>
    ensures told { (n : ℕ) → n < 2 ^ 64 → first.now ≡ decimal n → second.now ≡ decimal n
        → result ≡ Some n }
    ensures twice { IsSome result → first.now ≡ second.now }
{
    if first != second {
        return None;
    }
    number_of(first)
}

/// How many operations a text says that there have been, if it says so twice.
fn held_of(text: &str) -> Option<u64>
    ensures told { (n : ℕ) → n < 2 ^ 64 → text.now ≡ held_text n → result ≡ Some n }
    ensures twice { IsSome result → (line : List ℕ) × (text.now ≡ line ++ line) }
{
    match text.split_once('\n') {
        None => None,
        Some((first, rest)) => match rest.strip_suffix('\n') {
            None => None,
            Some(second) => held_between(first, second),
        },
    }
}

/// The same of bytes.
pub fn held_in(text: &[u8]) -> Option<u64>
    ensures told { (n : ℕ) → n < 2 ^ 64 → text.now ≡ held_text n → result ≡ Some n }
    ensures twice { IsSome result → (line : List ℕ) × (text.now ≡ line ++ line) }
{
    match str::from_utf8(text) {
        Ok(text) => held_of(text),
        Err(_error) => None,
    }
}

/// How many of the operations that an archive has held are missing, where it has so many.
pub fn missing_of(held: Option<u64>, count: u64) -> u64
    ensures { result ≡ unwrap_or held 0 - count }
{
    held.unwrap_or(0).saturating_sub(count)
}

/// Whether an archive has more operations than it was known to have held, of which there may be
/// nothing known.
pub fn is_more(held: Option<u64>, count: u64) -> bool
    ensures none { held ≡ None → IsTrue result }
    ensures some { IfSome held (λ held. IsTrue result ↔ (held < count)) }
{
    match held {
        None => true,
        Some(held) => held < count,
    }
}
