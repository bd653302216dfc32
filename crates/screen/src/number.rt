// A number in decimal.
ghost use Rattle.std.specs.Prelude.{◌≡◌};
ghost use Rattle.screen.specs.Number.{longer_of, number_of};

use text::character::{appended, digit};

// A number with one digit more, unless the byte is no digit or the number is above 4,294,967,295.
fn longer(value: u32, byte: u8) -> Option<u32>
    ensures { result ≡ longer_of value byte }
{
    appended(value, digit(byte)?)
}

// One digit or more, and nothing else.
pub fn number(text: &[u8]) -> Option<u32>
    ensures { result ≡ number_of text.now }
{
    if text.is_empty() {
        return None;
    }
    let mut value = 0;
    for byte in text {
        value = longer(value, *byte)?;
    }
    Some(value)
}
