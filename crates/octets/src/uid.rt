//! Unique identifiers (PS3.5, section 9.1).

ghost use Rattle.std.specs.Prelude.{◌≡◌};
ghost use Rattle.std.specs.List.{list_all};
ghost use Rattle.octets.specs.Uid.{is_uid_byte, is_uid_text};

fn is_digit_or_full_stop(byte: u8) -> bool
    ensures { result ≡ is_uid_byte byte }
{
    byte.is_ascii_digit() || byte == b'.'
}

fn has_uid_bytes_only(text: &[u8]) -> bool
    ensures { result ≡ list_all is_uid_byte text.now }
{
    text.iter().all(|byte| is_digit_or_full_stop(*byte))
}

/// Whether a trimmed value is a UID: 1 to 64 bytes, each a digit or a full stop.
#[tactic(auto, unfolding(crate::specs::Uid::is_uid_text))]
pub fn is_uid(text: &[u8]) -> bool
    ensures { result ≡ is_uid_text text.now }
{
    if text.is_empty() || text.len() > 64 {
        return false;
    }
    has_uid_bytes_only(text)
}
