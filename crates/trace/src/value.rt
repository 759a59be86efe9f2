// The number that digits write.
ghost use Rattle.std.specs.Prelude.{◌≡◌, ◌+◌, ◌-◌, ◌*◌, ◌^◌, ◌<◌, length};
ghost use Rattle.std.specs.Option.{SomeIff};
ghost use Rattle.trace.specs.Reading.{fitting, number_of};

use crate::fault::{LineFault, NumberFault};

/// The number of a run of digits that stands from `byte` on.
pub(crate) fn number(digits: &[u8], byte: usize) -> Result<u32, LineFault>
    requires { byte + length digits.now < 2 ^ 64 }
    ensures { result ≡ number_of digits.now byte }
{
    match digits {
        [] => Err(LineFault::Form { byte }),
        [b'0', _, ..] => Err(LineFault::Form { byte: byte + 1 }),
        _ => Ok(value(digits, byte)?),
    }
}

// No parse: it takes text, and the law of reading speaks of any bytes, digit by digit.
// The value of digits, if it fits.
fn value(digits: &[u8], byte: usize) -> Result<u32, NumberFault>
    ensures { result ≡ fitting digits.now byte }
{
    digits
        .iter()
        .try_fold(0, |value, digit| pushed(value, *digit))
        .ok_or(NumberFault { byte })
}

// The value with one more digit behind it, if it still fits.
fn pushed(value: u32, digit: u8) -> Option<u32>
    ensures { SomeIff result (value * 10 + (digit - 48) < 2 ^ 32) (value * 10 + (digit - 48)) }
{
    value
        .checked_mul(10)?
        .checked_add(u32::from(digit.saturating_sub(b'0')))
}
