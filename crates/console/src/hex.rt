// Bytes as text: a space and two lowercase hexadecimal digits for each.
ghost use Rattle.std.specs.Prelude.{◌≡◌, IfOk, Some, None, vec_items, MatchOption};
ghost use Rattle.std.specs.Option.{option_map};
ghost use Rattle.console.specs.Hex.{byte_of, bytes_of, digit_of, next_of};

use std::alloc::{AllocError, Global};

// By hand: the library's hex takes uppercase digits too, and no space before a byte.
fn digit_of(c: u8) -> Option<u8>
    ensures { result ≡ digit_of c }
{
    match c {
        b'0'..=b'9' => Some(c - b'0'),
        b'a'..=b'f' => Some(c - b'a' + 10),
        _ => None,
    }
}

fn byte_of(high: u8, low: u8) -> Option<u8>
    ensures { result ≡ byte_of high low }
{
    let high = digit_of(high)?;
    let low = digit_of(low)?;
    Some(high * 16 + low)
}

// A space and a byte off the front of the text.
fn next_byte(text: &[u8]) -> Option<(u8, &[u8])>
    ensures { MatchOption result (next_of text.now ≡ None) (λ p. next_of text.now ≡ Some (p.0, p.1.now)) }
{
    let [b' ', high, low, rest @ ..] = text else {
        return None;
    };
    Some((byte_of(*high, *low)?, rest))
}

// The bytes that a text spells, if it spells any.
// `None` says that the text spells no bytes, `Err` that there is no memory for them.
pub(crate) fn bytes_of(heap: Global, text: &[u8]) -> Result<Option<Vec<u8>>, AllocError>
    ensures { IfOk result (λ o. option_map vec_items o ≡ bytes_of text.now) }
{
    let mut bytes = Vec::new(heap);
    let mut rest = text;
    // Bytes are taken off the front: this counts nothing.
    while !rest.is_empty() {
        let Some((byte, after)) = next_byte(rest) else {
            return Ok(None);
        };
        bytes.push(byte)?;
        rest = after;
    }
    Ok(Some(bytes))
}
