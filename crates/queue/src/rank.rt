// Which prio goes first. Prios are compared on their bits, since what the processor says of floats turns on its mode.
ghost use Rattle.std.specs.Prelude.{◌≡◌};
ghost use Rattle.std.specs.Float.{binary64};
ghost use Rattle.std.specs.Float.Ieee.{nan_bits};
ghost use Rattle.queue.specs.Code.Rank.{rank_of, bits_before};

// The bit of the sign, and an infinity's bits without it.
const SIGN: u64 = 0x8000_0000_0000_0000;

const INFINITY: u64 = 0x7FF0_0000_0000_0000;

#[tactic(auto, using(crate::proofs::Ranks::ranking))]
fn is_nan(bits: u64) -> bool
    ensures { result ≡ nan_bits binary64 bits }
{
    INFINITY < bits % SIGN
}

// Sign and size as one number.
#[tactic(auto, using(crate::proofs::Ranks::ranking))]
fn rank(bits: u64) -> u64
    ensures { result ≡ rank_of bits }
{
    let size = bits % SIGN;
    if bits < SIGN {
        SIGN + size
    } else {
        SIGN - size
    }
}

// The higher prio, then the smaller ID. No order of all prios, as a derived one would be: a NaN goes before none, nor does any go before it.
#[tactic(auto, using(crate::proofs::Ranks::before))]
pub fn goes_before(prio: u64, id: u64, other: u64, other_id: u64) -> bool
    ensures { result ≡ bits_before prio id other other_id }
{
    if is_nan(prio) | is_nan(other) {
        return false;
    }
    let own = rank(prio);
    let its = rank(other);
    (its < own) | ((own == its) & (id < other_id))
}
