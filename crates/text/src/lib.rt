// Texts of at most 256 bytes by value: what the product prints is composed in one, whole, before a byte is written out.
#![tactic(auto)]

ghost use Rattle.std.specs.Prelude.{◌≡◌, [], ◌+◌, ◌<◌};
ghost use Rattle.text.specs.Decimal as Decimal;
ghost use Rattle.text.specs.Texts.{text_of, pushed, appended};
ghost use Rattle.text.specs.Refused.{refused_line};

use refusals::Refusal;

// The first `length` bytes are the text.
#[derive(Clone, Copy)]
pub struct Text {
    pub bytes: [u8; 256],
    pub length: usize,
}

impl Text {
    // The empty text.
    pub fn empty() -> Self
        ensures { result ≡ text_of [] }
    {
        Text {
            bytes: [0; 256],
            length: 0,
        }
    }

    // The text and one more byte; a full one stays as it is.
    pub fn push(self, byte: u8) -> Self
        ensures { result ≡ pushed self byte }
    {
        let length = self.length;
        let mut bytes = self.bytes;
        if 256 <= length {
            return self;
        }
        bytes[length] = byte;
        Text {
            bytes,
            length: length + 1,
        }
    }

    // The text, then these bytes, as many as have room.
    pub fn append(self, more: &[u8]) -> Self
        ensures { result ≡ appended self more.now }
    {
        let mut text = self;
        for &byte in more {
            text = text.push(byte);
        }
        text
    }

    // The text, then a number's decimal digits.
    pub fn decimal(self, x: u64) -> Self
        ensures { result ≡ appended self (Decimal.decimal x) }
    {
        if x < 10 {
            self.push(digit(x))
        } else {
            self.decimal(x / 10).push(digit(x % 10))
        }
    }
}

// A refusal's line: all that the circuit program prints of it, and the first that the pair program does.
pub fn refused_line(given: Refusal) -> Text
    ensures { result ≡ text_of (refused_line given) }
{
    Text::empty()
        .append(b"c refused ")
        .decimal(u8::from(given) as u64)
        .append(b"\n")
}

// A digit in ASCII.
fn digit(x: u64) -> u8
    requires { x < 10 }
    ensures { result ≡ 48 + x }
{
    48 + x as u8
}
