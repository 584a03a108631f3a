// Reals: finite ones, and whole numbers that stand for them.
ghost use Rattle.std.specs.Prelude.{◌≡◌, Some};
ghost use lib.{Ieee.binary64, IntN.negsuc};
ghost use Rattle.number.specs.Number.{real_by};
ghost use Rattle.field.specs.{Kind.Kind, Cell.figure_of};
ghost use Rattle.field.specs.Code.Read.{tell, read_at, real_value_in};

use number::narrow::fits_single;
use number::whole::real_bits;
use number::{Number, bits_at, number_at};

// Up to here, either way, a float 64 has every whole number: 2^53.
const MOST_COUNTED: u64 = 0x20_0000_0000_0000;

// A real. Most are of eight bytes.
#[tactic(auto, using(crate::proofs::Reals::reals))]
pub fn real_at(s: &[u8], at: usize) -> Option<f64>
    ensures { result ≡ read_at figure_of Kind.reals s.now at }
{
    if at < s.len() {
        if s[at] == 0xCB {
            return finite(bits_at(s, at + 1, 8)?);
        }
    }
    real_in(number_at(s, at)?)
}

// A real that single precision holds exactly.
#[tactic(auto, using(crate::proofs::Singles::singles))]
pub fn single_at(s: &[u8], at: usize) -> Option<f64>
    ensures { result ≡ read_at figure_of Kind.singles s.now at }
{
    let x = real_at(s, at)?;
    if fits_single(f64::to_bits(x)) {
        Some(x)
    } else {
        None
    }
}

// A finite real of eight bytes n: its exponent's field is not all ones.
#[tactic(auto, using(crate::proofs::Reals::doubles))]
fn finite(n: u64) -> Option<f64>
    ensures { result ≡ tell figure_of (real_value_in (real_by binary64 n)) }
{
    if n % 0x8000_0000_0000_0000 / 0x10_0000_0000_0000 == 0x7FF {
        return None;
    }
    Some(f64::from_bits(n))
}

// The range check of reals: a finite one, or a whole number from -2^53 to 2^53.
#[tactic(auto, using(crate::proofs::Numbers::turns, crate::proofs::Reals::figures))]
fn real_in(n: Number) -> Option<f64>
    ensures { result ≡ tell figure_of (real_value_in (Some n)) }
{
    match n {
        Number::Signed(z) => {
            if z < 0 {
                real_below((-1 - z) as u64)
            } else {
                real_upto(z as u64)
            }
        }
        Number::Unsigned(u) => real_upto(u),
        Number::Real(x) => Some(x),
    }
}

// The real of a whole number from 0 on, up to 2^53.
#[tactic(auto, using(crate::proofs::Reals::counted))]
fn real_upto(n: u64) -> Option<f64>
    ensures { result ≡ tell figure_of (real_value_in (Some (Number.Unsigned n))) }
{
    if n <= MOST_COUNTED {
        Some(f64::from_bits(real_bits(false, n)))
    } else {
        None
    }
}

// The real of -1 - k, down to -2^53.
#[tactic(auto, using(crate::proofs::Reals::counted))]
fn real_below(k: u64) -> Option<f64>
    ensures { result ≡ tell figure_of (real_value_in (Some (Number.Signed (negsuc k)))) }
{
    if k < MOST_COUNTED {
        Some(f64::from_bits(real_bits(true, k + 1)))
    } else {
        None
    }
}
