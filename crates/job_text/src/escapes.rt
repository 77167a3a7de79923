ghost use Rattle.std.specs.Prelude.{◌≡◌, ◌+◌, ◌*◌, ◌<◌, IfOk, IfSome};
ghost use Rattle.std.specs.Option.{option_map};
ghost use Rattle.job_text.specs.Escapes.{escape_of, hex_byte as hex_byte_of, hex_digit as hex_digit_of, unescaped};

use crate::bytes::byte_at;
use cm_core::{List, NoMemory};
use std::alloc::Global;

/// What stands behind a backslash: the byte that it means, and how many bytes it has.
#[derive(Clone, Copy)]
pub(crate) struct Escape {
    pub(crate) byte: u8,
    pub(crate) length: usize,
}

fn hex_digit(digit: u8) -> Option<u8>
    ensures value { result ≡ hex_digit_of digit }
    ensures bound { IfSome result (λ value. value < 16) }
{
    match digit {
        b'0'..=b'9' => Some(digit - b'0'),
        b'a'..=b'f' => Some(digit - b'a' + 10),
        b'A'..=b'F' => Some(digit - b'A' + 10),
        _ => None,
    }
}

fn hex_byte(high: u8, low: u8) -> Option<u8>
    ensures { result ≡ hex_byte_of high low }
{
    let high = hex_digit(high)?;
    let low = hex_digit(low)?;
    Some(high * 16 + low)
}

/// The escape whose backslash stands directly before the text.
fn read_escape(text: &[u8]) -> Option<Escape>
    ensures { result ≡ escape_of text.now }
{
    match byte_at(text, 0) {
        b'n' => Some(Escape {
            byte: b'\n',
            length: 1,
        }),
        b't' => Some(Escape {
            byte: b'\t',
            length: 1,
        }),
        b'\\' => Some(Escape {
            byte: b'\\',
            length: 1,
        }),
        b'x' => {
            let byte = hex_byte(byte_at(text, 1), byte_at(text, 2))?;
            Some(Escape { byte, length: 3 })
        }
        _ => None,
    }
}

/// The bytes that a text with escapes stands for, or None where a backslash begins no escape.
pub(crate) fn unescape(alloc: Global, text: &[u8]) -> Result<Option<List<u8>>, NoMemory>
    ensures { IfOk result (λ bytes. bytes ≡ unescaped text.now) }
{
    let mut bytes = List::new(alloc);
    let mut skip = 0;
    for (index, byte) in text.iter().enumerate() {
        if skip > 0 {
            skip -= 1;
            continue;
        }
        if *byte != b'\\' {
            bytes.push(*byte)?;
            continue;
        }
        let (_, rest) = text.split_at(index + 1);
        let Some(escape) = read_escape(rest) else {
            return Ok(None);
        };
        bytes.push(escape.byte)?;
        skip = escape.length;
    }
    Ok(Some(bytes))
}
