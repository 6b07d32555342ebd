//! Printable bytes (ISO 646, which PS3.5, section 6.1.1, calls the default repertoire).

ghost use Rattle.std.specs.Prelude.{◌≡◌};
ghost use Rattle.std.specs.List.{list_all};
ghost use Rattle.octets.specs.Graphic.{is_graphic};

fn is_graphic_byte(byte: u8) -> bool
    ensures { result ≡ is_graphic byte }
{
    (0x20..=0x7E).contains(&byte)
}

/// Whether each byte is a printable one of ASCII, a space among them.
pub fn are_graphic(text: &[u8]) -> bool
    ensures { result ≡ list_all is_graphic text.now }
{
    text.iter().all(|byte| is_graphic_byte(*byte))
}
