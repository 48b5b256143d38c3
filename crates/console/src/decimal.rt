// Numbers as text: decimal digits, one at least.
ghost use Rattle.std.specs.Prelude.{◌≡◌};
ghost use Rattle.console.specs.Decimal.{number_of};
ghost use Rattle.console.specs.Steps.{most};

// The number that a text spells, if it spells one that is at most 65535.
// Not `parse`, which would take a sign in front.
pub(crate) fn number_of(text: &[u8]) -> Option<u16>
    ensures { result ≡ number_of most text.now }
{
    if text.is_empty() {
        return None;
    }
    let mut value: u16 = 0;
    for c in text {
        if !c.is_ascii_digit() {
            return None;
        }
        value = value.checked_mul(10)?.checked_add(u16::from(*c - b'0'))?;
    }
    Some(value)
}
