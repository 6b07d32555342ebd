//! What is escaped is text alone: laws, said as contracts of functions with nothing to do.

ghost use Rattle.std.specs.Prelude.{◌≡◌, IsTrue, List, ℕ, Some, not};
ghost use Rattle.std.specs.List.{list_all};
ghost use Rattle.std.specs.Str.{is_utf8};
ghost use Rattle.archive_page.specs.Characters.{text_of as text_in};
ghost use Rattle.archive_page.specs.Escaping.{escaped, is_delimiter, is_control_byte, read_back};

/// In what is escaped there is no quotation mark, no `<`, no `>` and no control character, each `&`
/// begins a reference, and with each reference read as its byte it is the text of the value. HTML
/// reads another character of the reference to a zero byte.
pub fn what_is_escaped_makes_no_markup()
    ensures no_delimiter { (value : List ℕ) →
        IsTrue (list_all (λ b. not (is_delimiter b)) (escaped value)) }
    ensures no_control { (value : List ℕ) →
        IsTrue (list_all (λ b. not (is_control_byte b)) (escaped value)) }
    ensures reads_back { (value : List ℕ) → read_back (escaped value) ≡ Some (text_in value) }
    ensures same { (value : List ℕ) → IsTrue (is_utf8 value)
        → read_back (escaped value) ≡ Some value }
{}
