//! Wild card matching (PS3.4, section C.2.2.2.4).

ghost use Rattle.std.specs.Prelude.{◌≡◌, ◌+◌, ◌<◌, ◌≤◌, length, take, drop, slice_index, ◌∷◌, ◌==◌, false, true};
ghost use Rattle.std.specs.Prelude.{IsTrue, IfSome};
ghost use Rattle.std.specs.List.{list_all};
ghost use Rattle.key_matching.specs.WildCard.{star, capital, folded, is_byte_match as is_byte_match_of};
ghost use Rattle.key_matching.specs.WildCard.{is_wild_match as is_wild_match_of};
ghost use Rattle.key_matching.specs.WildCardFront.{IsStarless, IsStuck, is_itself as is_itself_in};
ghost use Rattle.key_matching.specs.WildCardFront.{is_front as is_front_in, IsFirstPlace};

use memchr::memmem;

/// A small ASCII letter as its capital.
fn capital_of(byte: u8) -> u8
    ensures { result ≡ capital byte }
{
    if byte >= 97 && byte <= 122 {
        byte - 32
    } else {
        byte
    }
}

fn folded_of(folds: bool, byte: u8) -> u8
    ensures { result ≡ folded folds byte }
{
    if folds { capital_of(byte) } else { byte }
}

fn is_byte_match(folds: bool, key: u8, value: u8) -> bool
    ensures { result ≡ is_byte_match_of folds key value }
{
    key == b'?' || folded_of(folds, key) == folded_of(folds, value)
}

/// Whether a `*` stands at a place of a key.
fn is_star_at(key: &[u8], n: usize) -> bool
    ensures star { IsTrue result → (n < length key.now) × ((slice_index key.now n == star) ≡ true) }
    ensures other { result ≡ false → n < length key.now → (slice_index key.now n == star) ≡ false }
{
    n < key.len() && key[n] == b'*'
}

/// The first n bytes.
fn front(bytes: &[u8], n: usize) -> &[u8]
    requires { n ≤ length bytes.now }
    ensures { result.now ≡ take n bytes.now }
{
    &bytes[..n]
}

/// What stands behind the first n bytes.
fn behind(bytes: &[u8], n: usize) -> &[u8]
    requires { n ≤ length bytes.now }
    ensures { result.now ≡ drop n bytes.now }
{
    &bytes[n..]
}

/// What stands behind the byte at n.
fn after(bytes: &[u8], n: usize) -> &[u8]
    requires { n < length bytes.now }
    ensures { result.now ≡ drop (n + 1) bytes.now }
{
    &bytes[n + 1..]
}

/// How many bytes match, up to a `*`, to the first that do not match or to the end of either.
fn matching_front(folds: bool, key: &[u8], value: &[u8]) -> usize
    ensures within_key { result ≤ length key.now }
    ensures within_value { result ≤ length value.now }
    ensures starless { IsStarless result key.now }
    ensures rest { is_wild_match_of folds key.now value.now ≡ is_wild_match_of folds
        (drop result key.now) (drop result value.now) }
    ensures stuck { IsStuck folds (drop result key.now) (drop result value.now) }
{
    let mut n = 0;
    while n < key.len() && n < value.len() {
        if is_star_at(key, n) || !is_byte_match(folds, key[n], value[n]) {
            return n;
        }
        n += 1;
    }
    n
}

/// How many bytes stand before the first `*`, or before the end.
fn run_length(key: &[u8]) -> usize
    ensures within { result ≤ length key.now }
    ensures starless { IsStarless result key.now }
    ensures star { result < length key.now → (slice_index key.now result == star) ≡ true }
{
    let mut n = 0;
    while n < key.len() && key[n] != b'*' {
        n += 1;
    }
    n
}

/// Whether each byte of a run without `*` matches at the front of a value.
fn is_front(folds: bool, run: &[u8], value: &[u8]) -> bool
    ensures { result ≡ is_front_in folds run.now value.now }
{
    if value.len() < run.len() {
        return false;
    }
    let mut n = 0;
    while n < run.len() {
        if !is_byte_match(folds, run[n], value[n]) {
            return false;
        }
        n += 1;
    }
    true
}

fn is_itself(byte: u8) -> bool
    ensures { result ≡ is_itself_in byte }
{
    byte != b'?'
}

/// Whether each byte of a run matches itself alone, where nothing is folded.
fn are_literal(run: &[u8]) -> bool
    ensures { result ≡ list_all is_itself_in run.now }
{
    run.iter().all(|byte| is_itself(*byte))
}

/// The first place at which a run matches, by trying each.
fn place_by_trying(folds: bool, run: &[u8], value: &[u8]) -> Option<usize>
    ensures first { IsFirstPlace folds run.now value.now result }
    ensures within { IfSome result (λ at. at + length run.now ≤ length value.now) }
{
    let mut at = 0;
    while at <= value.len() {
        if is_front(folds, run, behind(value, at)) {
            return Some(at);
        }
        at += 1;
    }
    None
}

/// The first place at which a run of bytes stands.
fn place_of_literal(run: &[u8], value: &[u8]) -> Option<usize>
    requires { list_all is_itself_in run.now ≡ true }
    ensures first { IsFirstPlace false run.now value.now result }
    ensures within { IfSome result (λ at. at + length run.now ≤ length value.now) }
{
    memmem::find(value, run)
}

/// The first place of a value at which a run without `*` matches.
fn first_place(folds: bool, run: &[u8], value: &[u8]) -> Option<usize>
    ensures first { IsFirstPlace folds run.now value.now result }
    ensures within { IfSome result (λ at. at + length run.now ≤ length value.now) }
{
    if !folds && are_literal(run) {
        return place_of_literal(run, value);
    }
    place_by_trying(folds, run, value)
}

/// Whether `*`, with a run behind it that has none, matches: the run ends the value.
fn is_end(folds: bool, run: &[u8], value: &[u8]) -> bool
    requires { IsStarless (length run.now) run.now }
    ensures { result ≡ is_wild_match_of folds (star ∷ run.now) value.now }
{
    if value.len() < run.len() {
        return false;
    }
    is_front(folds, run, behind(value, value.len() - run.len()))
}

/// Whether `*`, with this key behind it, matches.
///
/// Each run between two `*` takes its first place behind the run before: what a later place could
/// still leave out, the next `*` can. The last run ends the value.
fn is_match_behind_star(folds: bool, key: &[u8], value: &[u8]) -> bool
    ensures { result ≡ is_wild_match_of folds (star ∷ key.now) value.now }
{
    let mut key = key;
    let mut value = value;
    loop {
        let n = run_length(key);
        if n == key.len() {
            return is_end(folds, key, value);
        }
        let Some(at) = first_place(folds, front(key, n), value) else {
            return false;
        };
        key = after(key, n);
        value = behind(behind(value, at), n);
    }
}

/// Whether a key with wild cards matches a value, in as many steps as both are long; a run between
/// two `*` that folds or has a `?` takes up to its length times that of the value. Where it folds,
/// ASCII letters match in either case.
pub(crate) fn is_wild_match(folds: bool, key: &[u8], value: &[u8]) -> bool
    ensures { result ≡ is_wild_match_of folds key.now value.now }
{
    let n = matching_front(folds, key, value);
    if is_star_at(key, n) {
        return is_match_behind_star(folds, after(key, n), behind(value, n));
    }
    if n < value.len() {
        return false;
    }
    n == key.len()
}
