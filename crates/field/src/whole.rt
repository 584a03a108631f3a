// Whole numbers within bounds.
ghost use Rattle.std.specs.Prelude.{◌≡◌, negsuc, Some};
ghost use Rattle.field.specs.{Kind.Kind, Judge.whole_in, Cell.word_of};
ghost use Rattle.field.specs.Code.Read.{tell, read_at};

use number::{Number, bits_at, number_at};

// A whole number from minus lo to hi. Most are one byte or unsigned, and are read here, with no call of the number reader.
#[tactic(auto, using(crate::proofs::Numbers::numbers))]
pub fn whole_at(s: &[u8], at: usize, lo: u64, hi: u64) -> Option<u64>
    ensures { result ≡ read_at word_of (Kind.wholes lo hi) s.now at }
{
    if s.len() <= at {
        return None;
    }
    let b = s[at];
    if b < 0x80 {
        return upto(hi, b as u64);
    }
    let from = at + 1;
    match b {
        0xCC => upto(hi, bits_at(s, from, 1)?),
        0xCD => upto(hi, bits_at(s, from, 2)?),
        0xCE => upto(hi, bits_at(s, from, 4)?),
        0xCF => upto(hi, bits_at(s, from, 8)?),
        _ => whole_in(number_at(s, at)?, lo, hi),
    }
}

#[tactic(auto, using(crate::proofs::Numbers::turns, crate::proofs::Numbers::wholes))]
fn whole_in(n: Number, lo: u64, hi: u64) -> Option<u64>
    ensures { result ≡ tell word_of (whole_in lo hi (Some n)) }
{
    match n {
        Number::Signed(z) => {
            if z < 0 {
                below(lo, (-1 - z) as u64)
            } else {
                upto(hi, z as u64)
            }
        }
        Number::Unsigned(u) => upto(hi, u),
        Number::Real(_) => None,
    }
}

// A whole number from 0 to hi.
#[tactic(auto, using(crate::proofs::Numbers::bounds))]
fn upto(hi: u64, n: u64) -> Option<u64>
    ensures { result ≡ tell word_of (whole_in 0 hi (Some (Number.Unsigned n))) }
{
    if n <= hi { Some(n) } else { None }
}

// -1 - k, down to minus lo: all bits of k turned.
#[tactic(auto, using(crate::proofs::Numbers::bounds))]
fn below(lo: u64, k: u64) -> Option<u64>
    ensures { result ≡ tell word_of (whole_in lo 0 (Some (Number.Signed (negsuc k)))) }
{
    if k < lo {
        Some(0xFFFF_FFFF_FFFF_FFFF - k)
    } else {
        None
    }
}
