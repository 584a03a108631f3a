// Whether a part of a record fits: reals are finite, numbers have their sign, and what is absent is zero.
ghost use Rattle.std.specs.Prelude.{◌≡◌};
ghost use Rattle.saying.specs.{Says.no_bits, Says.no_position, Fits.is_real, Fits.is_position};
ghost use Rattle.faults.specs.Code.Tests.{is_single, real_fits, word_fits, mark_fits, station_id_fits, centre_id_fits, version_fits, position_fits, tail_fits, lent_fits};

use field::Position;
use message::{Maybe, Version};
use number::narrow::fits_single;

// Of a real's 64 bits: the sign's weight, the exponent's, and the exponent of one that is not finite.
const SIGN: u64 = 0x8000_0000_0000_0000;

const EXPONENT: u64 = 0x10_0000_0000_0000;

const NOT_FINITE: u64 = 2047;

// Sixteen bytes are two numbers of eight.
const HALF: u8 = 8;

const ALL: u8 = 16;

const BYTE_BITS: u64 = 8;

const HALF_BITS: u64 = 64;

// A finite real.
pub fn is_real(x: f64) -> bool
    ensures { result ≡ is_real x }
{
    if x.is_nan() {
        return false;
    }
    f64::to_bits(x) % SIGN / EXPONENT != NOT_FINITE
}

// A finite real that single precision holds exactly.
pub fn is_single(x: f64) -> bool
    ensures { result ≡ is_single x }
{
    if x.is_nan() {
        return false;
    }
    fits_single(f64::to_bits(x))
}

// Zero, and not minus zero.
pub fn no_bits(x: f64) -> bool
    ensures { result ≡ no_bits x }
{
    if x.is_nan() {
        return false;
    }
    f64::to_bits(x) == 0
}

// Of the fields that may be absent each sort has its own two tests: one function over them would be lent both at each call, and be no plainer.
pub fn maybe_real(x: Maybe<f64>) -> bool
    ensures { result ≡ real_fits x }
{
    if x.here {
        is_real(x.value)
    } else {
        no_bits(x.value)
    }
}

pub fn maybe_word(x: Maybe<u64>) -> bool
    ensures { result ≡ word_fits x }
{
    x.here | (x.value == 0)
}

pub fn maybe_mark(x: Maybe<bool>) -> bool
    ensures { result ≡ mark_fits x }
{
    x.here | !x.value
}

// From zero on.
pub fn station_id(x: Maybe<i64>) -> bool
    ensures { result ≡ station_id_fits x }
{
    if x.here { 0 <= x.value } else { x.value == 0 }
}

// Up to zero.
pub fn centre_id(x: Maybe<i64>) -> bool
    ensures { result ≡ centre_id_fits x }
{
    if x.here { x.value <= 0 } else { x.value == 0 }
}

pub fn maybe_version(x: Maybe<Version>) -> bool
    ensures { result ≡ version_fits x }
{
    let v = x.value;
    x.here | ((v.major == 0) & ((v.minor == 0) & (v.patch == 0)))
}

// A position and none: of one function, lent the test of a real, no more than the three fields would be left.
fn is_position(x: Position) -> bool
    ensures { result ≡ is_position x }
{
    is_real(x.latitude) & (is_real(x.longitude) & is_real(x.altitude))
}

fn no_position(x: Position) -> bool
    ensures { result ≡ no_position x }
{
    no_bits(x.latitude) & (no_bits(x.longitude) & no_bits(x.altitude))
}

pub fn maybe_position(x: Maybe<Position>) -> bool
    ensures { result ≡ position_fits x }
{
    let p = x.value;
    if x.here {
        is_position(p)
    } else {
        no_position(p)
    }
}

// At most sixteen bytes, and zeros behind the first n: nothing is left once those are shifted out.
pub fn tail(x: record::Sixteen, n: u8) -> bool
    ensures { result ≡ tail_fits x n }
{
    let bits = BYTE_BITS * (n as u64);
    if n < HALF {
        return (x.low == 0) & (x.high << bits == 0);
    }
    if n < ALL {
        return x.low << (bits - HALF_BITS) == 0;
    }
    n == ALL
}

// No more than the field may have, and no more than are lent.
pub fn is_lent(n: u8, most: u8, lent: usize) -> bool
    ensures { result ≡ lent_fits most n lent }
{
    (n <= most) & (n as usize <= lent)
}
