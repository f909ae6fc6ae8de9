// The number that a text writes.
ghost use Rattle.std.specs.Prelude.{◌≡◌};
ghost use Rattle.sheet_fields.specs.Cuts.{understood};
ghost use Rattle.sheet_fields.specs.Numbers.{number};

use crate::fault::FieldFault;

// Digits only, at least one, no leading zero, below 2^64.
pub fn read_number(s: &[u8]) -> Result<u64, FieldFault>
    ensures { understood result ≡ number s.now }
{
    if s.is_empty() {
        return Err(FieldFault::Empty);
    }
    if s.len() > 1 && s[0] == b'0' {
        return Err(FieldFault::LeadingZero);
    }
    let mut n: u64 = 0;
    for b in s {
        let digit = match *b {
            b'0'..=b'9' => u64::from(*b - b'0'),
            _ => return Err(FieldFault::NoDigit),
        };
        let tens = n.checked_mul(10).ok_or(FieldFault::TooLarge)?;
        n = tens.checked_add(digit).ok_or(FieldFault::TooLarge)?;
    }
    Ok(n)
}
