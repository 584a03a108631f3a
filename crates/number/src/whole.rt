// A whole number's bits as a float 64's.
ghost use mathlib.Core.{Path.◌≡◌, Bool.cond};
ghost use Rattle.std.specs.Prelude.{◌^◌, ◌≤◌};
ghost use Rattle.std.specs.Float.{binary64};
ghost use Rattle.std.specs.Float.Ieee.{of_bits, Exact.HasValue};

// The bits of the float 64 that is exactly a whole number up to 2^53, made in whole numbers as `widened` makes its own. Of the zeros the sign tells.
pub fn real_bits(negative: bool, n: u64) -> u64
    ensures { n ≤ 2 ^ 53 → HasValue (of_bits binary64 result) negative n 1 }
{
    let sign = sign_bit(negative);
    if n == 0 {
        return sign;
    }
    // The leading digit is moved to the 53rd place, where it adds 1 to the exponent's field.
    let zeros = u64::leading_zeros(n) as u64;
    sign + (1085 - zeros) * 0x10_0000_0000_0000 + (n << zeros) / 0x800
}

fn sign_bit(negative: bool) -> u64
    ensures { result ≡ cond negative (2 ^ 63) 0 }
{
    if negative { 0x8000_0000_0000_0000 } else { 0 }
}
