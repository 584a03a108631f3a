// The one number that answers every call.
ghost use Rattle.std.specs.Prelude.{◌≡◌};
ghost use Rattle.refusal.specs.Number.{number_of};
ghost use Rattle.chozukpima.specs.Packed.{packed, refused_with, value_answer};

use refusal::Refusal;

// The greatest value of 48 bits.
pub const MOST_VALUE: usize = 0xFFFF_FFFF_FFFF;

#[tactic(auto, using(crate::proofs::Answers::shown_min), unfolding(crate::specs::Packed::packed))]
pub fn pack(refusal: u8, happened: u8, value: usize) -> u64
    ensures { result ≡ packed refusal happened value }
{
    let shown = value.min(MOST_VALUE) as u64;
    u64::from(refusal) + (256 * u64::from(happened) + 65536 * shown)
}

pub fn refuse(r: Refusal) -> u64
    ensures { result ≡ refused_with (number_of r) }
{
    pack(r.number(), 0, 0)
}

// A length, a row or a place, or the refusal.
pub fn value_answer(a: Result<usize, Refusal>) -> u64
    ensures { result ≡ value_answer a }
{
    match a {
        Ok(n) => pack(0, 0, n),
        Err(r) => refuse(r),
    }
}
