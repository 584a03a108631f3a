// Numbers in groups of seven bits, lowest first, in the shortest form: read from bytes at a place, and written into a lent room.
#![tactic(auto)]

mod put;

ghost use Rattle.std.specs.Prelude.{◌≡◌, ◌+◌, ◌*◌, ◌≤◌, ◌<◌, ◌^◌};
ghost use Rattle.groups.specs.Groups.{last_group, tenth_group, behind, groups_at, number_at};

pub use put::put_number;
use refusal::Refusal;

// So many bytes may stand behind the first.
const MORE: u8 = 9;

// All but the last byte have the high bit set.
const HIGH: u8 = 128;

// A number and the place behind it.
#[derive(Clone, Copy, Debug, PartialEq, Eq)]
pub struct Number {
    pub value: u64,
    pub next: usize,
}

// The number that stands at this place; 33, 32.
pub fn number_at(s: &[u8], at: usize) -> Result<Number, Refusal>
    ensures { result ≡ number_at s.now at }
{
    group_at(s, at, MORE)
}

// It calls itself as the definition `groups_at` does, since the last group decides first; a loop would need a second pass.
#[tactic(auto, using(crate::proofs::Reading::groups))]
fn group_at(s: &[u8], at: usize, more: u8) -> Result<Number, Refusal>
    requires { more ≤ 9 }
    ensures { result ≡ groups_at more s.now at }
{
    if s.len() <= at {
        return Err(Refusal::InputEnds);
    }
    let b = s[at];
    if more == 0 {
        return tenth(b, at + 1);
    }
    if b < HIGH {
        return Ok(last(b, at + 1));
    }
    let others = group_at(s, at + 1, more - 1)?;
    behind(b % HIGH, others)
}

// The tenth byte holds the one bit that is left.
#[tactic(auto, using(crate::proofs::Reading::tenths))]
fn tenth(b: u8, next: usize) -> Result<Number, Refusal>
    ensures { result ≡ tenth_group b next }
{
    if 1 < b {
        return Err(Refusal::NotShortest);
    }
    Ok(last(b, next))
}

// A group in front of others, which are not 0.
#[tactic(auto, using(crate::proofs::Reading::behinds))]
fn behind(low: u8, others: Number) -> Result<Number, Refusal>
    requires { low + 128 * others.value < 2 ^ 64 }
    ensures { result ≡ behind low others }
{
    if others.value == 0 {
        return Err(Refusal::NotShortest);
    }
    Ok(Number {
        value: u64::from(low) + 128 * others.value,
        next: others.next,
    })
}

fn last(b: u8, next: usize) -> Number
    ensures { result ≡ last_group b next }
{
    Number {
        value: u64::from(b),
        next,
    }
}
