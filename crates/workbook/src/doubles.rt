// The conversion of a double. Nothing is worked out in doubles: the bits are taken apart, and the rest is whole numbers.
ghost use Rattle.std.specs.Prelude.{◌≡◌, ◌<◌, ◌/◌, ◌^◌};
ghost use Rattle.std.specs.Float.{binary64};
ghost use Rattle.std.specs.Float.Ieee.{of_bits};
ghost use Rattle.apportion.specs.Fractions.{nearest, over};
ghost use Rattle.workbook.specs.declared.cells.Cell.TheVariants.{Number};
ghost use Rattle.workbook.specs.Inner.Steps.{conversion_in, conversion_of, fraction_conversion};

use apportion::{Refusal, added_by_rounding};

// The weights of the sign and of the leading digit in the bits of a double.
const SIGN: u64 = 1 << 63;

const LEADING: u64 = 1 << 52;

// A double as a cell of its own: its thousandths, or 15. A NaN has no bits of its own.
pub fn convert_double(x: f64, limit: u32) -> Result<u64, Refusal>
    ensures { conversion_in result ≡ conversion_of limit (Number x) }
{
    if x.is_nan() {
        Err(Refusal::WrongCell)
    } else {
        convert_bits(x.to_bits(), limit)
    }
}

// The same of the double with these bits. Those past the sign's weight are of a double below zero or not finite; the sign's alone are
// negative zero. With an exponent's field above 1074 a double is 2^52 or more, or is not finite.
fn convert_bits(bits: u64, limit: u32) -> Result<u64, Refusal>
    ensures { conversion_in result ≡ conversion_of limit (Number (of_bits binary64 bits)) }
{
    let negative = bits > SIGN;
    if negative {
        return Err(Refusal::WrongCell);
    }
    let field = (bits % SIGN / LEADING) as u32;
    let digits = bits % LEADING;
    match field {
        0 => convert_fraction(digits, 1074, limit),
        1..=1074 => convert_fraction(LEADING + digits, 1075 - field, limit),
        _ => Err(Refusal::WrongCell),
    }
}

// The same of a fraction, digits / 2^places. It is above the limit exactly where (digits - 1) / 2^places, rounded down, reaches it.
fn convert_fraction(digits: u64, places: u32, limit: u32) -> Result<u64, Refusal>
    requires { digits < 2 ^ 53 }
    ensures { conversion_in result ≡ fraction_conversion limit (over digits (2 ^ places)) }
{
    if digits > 0 && (digits - 1).unbounded_shr(places) >= u64::from(limit) {
        return Err(Refusal::WrongCell);
    }
    Ok(nearest_shifted(1000 * digits, places))
}

// n / 2^places, nearest, halves to even. With more than 63 places it is below a half.
fn nearest_shifted(n: u64, places: u32) -> u64
    requires { n < 2 ^ 63 }
    ensures { result ≡ nearest n (2 ^ places) }
{
    if places > 63 {
        return 0;
    }
    let divisor = 1 << places;
    let quotient = n / divisor;
    quotient + added_by_rounding(quotient, n % divisor, divisor)
}
