// Which float 64s a float 32 holds.
ghost use mathlib.Core.{Path.◌≡◌, Bool.◌&&◌};
ghost use Rattle.std.specs.Prelude.{◌+◌, ◌-◌};
ghost use Rattle.std.specs.Float.{binary32, binary64};
ghost use Rattle.std.specs.Float.Ieee.{of_bits, fits};
ghost use Rattle.number.specs.Number.{finite};

// Whether single precision holds a finite real of 64 bits exactly, told from its bits: no floating-point instruction, so the processor's mode decides nothing.
pub fn fits_single(bits: u64) -> bool
    ensures { result ≡ (finite binary64 bits && fits binary32 (of_bits binary64 bits)) }
{
    let magnitude = bits % 0x8000_0000_0000_0000;
    let field = magnitude / 0x10_0000_0000_0000;
    // From 2^128 on; so are the infinities and the NaNs.
    if 1150 < field {
        return false;
    }
    // Below 2^-149 there is only zero, of either sign.
    if field < 874 {
        return magnitude == 0;
    }
    bits % (1u64 << digits_lost(field)) == 0
}

// How many of a float 64's last digits a float 32 has no place for: 29, and one more for each exponent below its normal ones, which start at 2^-126.
fn digits_lost(field: u64) -> u64
    ensures { result ≡ 29 + (897 - field) }
{
    if field < 897 { 926 - field } else { 29 }
}
