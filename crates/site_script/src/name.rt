//! The words that name sites, views and targets.

ghost use Rattle.std.specs.Prelude.{◌≡◌, IfOk};
ghost use Rattle.std.specs.List.{list_all};
ghost use Rattle.site_script.specs.Names.{is_letter_or_digit as is_letter_or_digit_byte};
ghost use Rattle.site_script.specs.Names.{is_site_name as is_name_of_site, view_in as view_in_word};
ghost use Rattle.site_script.specs.Commands.{target_in as target_in_words};

use archive_model::View;
use octets::Octets;
use operation::Target;
use std::alloc::{AllocError, Global};

fn is_letter_or_digit(byte: u8) -> bool
    ensures { result ≡ is_letter_or_digit_byte byte }
{
    byte.is_ascii_alphanumeric()
}

fn has_letters_and_digits_only(word: &[u8]) -> bool
    ensures { result ≡ list_all is_letter_or_digit_byte word.now }
{
    word.iter().all(|byte| is_letter_or_digit(*byte))
}

/// Whether a word may name a site: 1 to 16 ASCII letters and digits.
#[tactic(auto, unfolding(crate::specs::Names::is_site_name))]
pub fn is_site_name(word: &[u8]) -> bool
    ensures { result ≡ is_name_of_site word.now }
{
    if word.is_empty() || word.len() > 16 {
        return false;
    }
    has_letters_and_digits_only(word)
}

/// The view that a called title asks for.
#[tactic(auto, unfolding(crate::specs::Names::view_in))]
pub fn view_in(word: &[u8]) -> Option<View>
    ensures { result ≡ view_in_word word.now }
{
    if word == b"ARCHIVE".as_slice() {
        return Some(View::Archive);
    }
    if word == b"QUALITY".as_slice() {
        return Some(View::Quality);
    }
    if word == b"AUDIT".as_slice() {
        return Some(View::Audit);
    }
    None
}

/// The target of a correction: `study`, `patient` or `series`, and its key.
#[tactic(auto, unfolding(crate::specs::Commands::target_in))]
pub fn target_in(alloc: Global, kind: &[u8], key: &Octets) -> Result<Option<Target>, AllocError>
    ensures { IfOk result (λ target. target ≡ target_in_words kind.now key.now) }
{
    if kind == b"study".as_slice() {
        return Ok(Some(Target::Study(key.copy(alloc)?)));
    }
    if kind == b"patient".as_slice() {
        return Ok(Some(Target::Patient(key.copy(alloc)?)));
    }
    if kind == b"series".as_slice() {
        return Ok(Some(Target::Series(key.copy(alloc)?)));
    }
    Ok(None)
}
