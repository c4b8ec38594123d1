// Rounding to the nearest whole number (document 02, (vi)): halves go to the even one.
ghost use Rattle.std.specs.Prelude.{◌≡◌, ◌+◌, ◌*◌, ◌<◌};
ghost use Rattle.apportion.specs.Fractions.{nearest, added_by_rounding};

// What rounding adds to a quotient with this remainder by the divisor, 0 or 1; not the sum, which two of the four callers cap.
pub fn added_by_rounding(quotient: u64, remainder: u64, divisor: u64) -> u64
    ensures value { result ≡ added_by_rounding quotient remainder divisor }
    ensures result_value { remainder < divisor → quotient + result ≡ nearest (quotient * divisor + remainder) divisor }
{
    // Twice the remainder may pass 64 bits, so half of the divisor is taken, rounded up here and down below.
    if remainder < divisor - divisor / 2 {
        return 0;
    }
    if remainder > divisor / 2 {
        return 1;
    }
    quotient % 2
}
