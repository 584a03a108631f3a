// A float 32's bits as a float 64's.
ghost use Rattle.std.specs.Prelude.{◌≡◌};
ghost use lib.{Dec.T, Ieee.binary32, Ieee.binary64, Ieee.of_bits};
ghost use Rattle.number.specs.Number.{finite};

// The bits of the float 64 with a finite float 32's value, made in whole numbers: no floating-point instruction, so the processor's mode decides nothing.
pub fn widened(n: u32) -> u64
    ensures { T (finite binary32 n) → of_bits binary64 result ≡ of_bits binary32 n }
{
    let b = n as u64;
    let sign = b / 0x8000_0000 * 0x8000_0000_0000_0000;
    let field = b % 0x8000_0000 / 0x80_0000;
    let digits = b % 0x80_0000;
    if 0 < field {
        return sign + (field + 896) * 0x10_0000_0000_0000 + digits * 0x2000_0000;
    }
    if digits == 0 {
        return sign;
    }
    // A subnormal: digits * 2^-149. Its leading digit is moved to the 53rd place, where it adds 1 to the field.
    let length = 64 - u64::leading_zeros(digits);
    sign + (length as u64 + 872) * 0x10_0000_0000_0000 + (digits << (53 - length))
}
