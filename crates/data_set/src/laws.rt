//! What the grammar comes to, as contracts of functions that do nothing.

ghost use Rattle.std.specs.Prelude.{◌≡◌, ◌≢◌, ◌⊎◌, ℕ, List, Some, false};
ghost use Rattle.std.specs.Option.{option_map};
ghost use Rattle.octets.specs.Bytes.{IsBytes};
ghost use Rattle.data_set.specs.declared.fault.SetFault.{SetFault};
ghost use Rattle.data_set.specs.declared.syntax.Syntax.{Syntax};
ghost use Rattle.data_set.specs.Tree.{Tree};
ghost use Rattle.data_set.specs.Texts.{Spells, HasFault};
ghost use Rattle.data_set.specs.Reading.{elements_in};
ghost use Rattle.data_set.specs.Written.{IsSet, text_of};
ghost use Rattle.data_set.specs.Tags.{is_group_length};
ghost use Rattle.octets.specs.Padding.{trimmed};
ghost use Rattle.data_set.specs.Values.{value_in, items_in};
ghost use Rattle.data_set.specs.Converted.{converted, converted_items_of, with_value};

/// A text spells at most one list of elements.
pub fn one_reading()
    ensures { (syntax : Syntax) (text : List ℕ) (ts us : List Tree) →
        Spells syntax text ts → Spells syntax text us → ts ≡ us }
{}

/// What a text spells is a function of the text.
pub fn what_is_spelled_is_computed()
    ensures { (syntax : Syntax) (text : List ℕ) (ts : List Tree) →
        Spells syntax text ts → elements_in syntax text ≡ ts }
{}

/// A text that spells elements has no fault.
pub fn no_fault_where_spelled()
    ensures { (syntax : Syntax) (text : List ℕ) (ts : List Tree) (f : SetFault) →
        Spells syntax text ts → HasFault syntax text f → ⊥ }
{}

/// A text has at most one fault.
pub fn one_fault()
    ensures { (syntax : Syntax) (text : List ℕ) (f g : SetFault) →
        HasFault syntax text f → HasFault syntax text g → f ≡ g }
{}

/// Every text of bytes spells elements, or has the fault of the first that offends.
pub fn each_text_has_an_outcome()
    ensures { (syntax : Syntax) (text : List ℕ) → IsBytes text →
        ((ts : List Tree) × Spells syntax text ts) ⊎ ((f : SetFault) × HasFault syntax text f) }
{}

/// The elements that a data set may have are those that some text spells.
pub fn a_set_is_what_a_text_spells()
    ensures written { (syntax : Syntax) (ts : List Tree) →
        IsSet syntax ts → Spells syntax (text_of ts) ts }
    ensures read { (syntax : Syntax) (text : List ℕ) (ts : List Tree) →
        Spells syntax text ts → IsSet syntax ts }
{}

/// A conversion changes no value, and makes of items the same items, converted.
pub fn a_conversion_keeps_values()
    ensures value { (syntax : Syntax) (tag : ℕ) (ts : List Tree) →
        is_group_length tag ≡ false → value_in tag (converted syntax ts) ≡ value_in tag ts }
    ensures items { (syntax : Syntax) (tag : ℕ) (ts : List Tree) →
        is_group_length tag ≡ false →
        items_in tag (converted syntax ts) ≡
        option_map (converted_items_of syntax) (items_in tag ts) }
{}

/// A value that was put in is read again, and all others are as they were.
pub fn a_value_put_in_is_read_again()
    ensures put { (syntax : Syntax) (tag : ℕ) (vr value : List ℕ) (ts : List Tree) →
        is_group_length tag ≡ false →
        value_in tag (with_value syntax tag vr value ts) ≡ Some (trimmed value) }
    ensures others { (syntax : Syntax) (tag other : ℕ) (vr value : List ℕ) (ts : List Tree) →
        is_group_length other ≡ false → other ≢ tag →
        value_in other (with_value syntax tag vr value ts) ≡ value_in other ts }
{}
