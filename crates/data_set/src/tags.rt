//! Tags of data sets (PS3.5, section 7.1.1).

ghost use Rattle.std.specs.Prelude.{◌≡◌};
ghost use Rattle.data_set.specs.Tags.{is_item_tag, is_reserved_group, is_listed, is_group_length};

use dictionary::{
    CONCEPT_NAME_CODE_SEQUENCE, CURRENT_REQUESTED_PROCEDURE_EVIDENCE_SEQUENCE,
    REFERENCED_SERIES_SEQUENCE, REFERENCED_SOP_SEQUENCE,
};

/// Whether a tag is that of an item or of an end, whose group is FFFE.
pub fn is_item_or_end(tag: u32) -> bool
    ensures { result ≡ is_item_tag tag }
{
    tag / 65536 == 0xfffe
}

/// Whether a tag's group has no place in a data set: 0000, that of commands (PS3.7, section 6.3),
/// and 0002, that of a file's header (PS3.10, section 7.1).
pub fn has_reserved_group(tag: u32) -> bool
    ensures { result ≡ is_reserved_group tag }
{
    let group = tag / 65536;
    group == 0x0000 || group == 0x0002
}

/// Whether a tag is that of a sequence in whatever way it is spelled
/// (docs/DECISIONS.md, "Sequences that are known by their tag").
pub fn is_sequence_tag(tag: u32) -> bool
    ensures { result ≡ is_listed tag }
{
    matches!(
        tag,
        REFERENCED_SERIES_SEQUENCE
            | REFERENCED_SOP_SEQUENCE
            | CONCEPT_NAME_CODE_SEQUENCE
            | CURRENT_REQUESTED_PROCEDURE_EVIDENCE_SEQUENCE
    )
}

/// Whether a tag is a group length, (gggg,0000).
pub fn names_group_length(tag: u32) -> bool
    ensures { result ≡ is_group_length tag }
{
    tag % 65536 == 0
}
