// The classes of bytes that leader codes, indicators, subfield codes and figures are taken from.
ghost use Rattle.std.specs.Prelude.{◌≡◌};
ghost use Rattle.record.specs.Classes.{code_character, digit, subfield_code};

// A code character, as leader codes and indicators are: blank, digit or small letter.
pub fn is_code_character(byte: u8) -> bool
    ensures { result ≡ code_character byte }
{
    matches!(byte, b' ' | b'0'..=b'9' | b'a'..=b'z')
}

// A subfield code: digit or small letter.
pub fn is_subfield_code(byte: u8) -> bool
    ensures { result ≡ subfield_code byte }
{
    matches!(byte, b'0'..=b'9' | b'a'..=b'z')
}

// A digit, as figures have.
pub fn is_digit(byte: u8) -> bool
    ensures { result ≡ digit byte }
{
    matches!(byte, b'0'..=b'9')
}
