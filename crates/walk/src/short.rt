// What the loops do by a lead byte alone; 0 means that `steps::element` is to look, and to judge.
ghost use Rattle.std.specs.Prelude.{◌≡◌, ◌+◌, ◌-◌, ◌*◌, ◌≤◌, ◌<◌};
ghost use lib.{Dec.leb, ListN.length};
ghost use Rattle.octets.specs.Choice.{either};
ghost use Rattle.element.specs.Form.{Role};
ghost use Rattle.walk.specs.Code.Short.{is_number, is_short, present, quick_of, quick_at, Bounded};

use crate::MOST_ELEMENTS;
use crate::lead::two_to;

// What a lead byte tells of a map is this and its pairs, of an array that and its parts; less is an element's bytes. One number, and no enum: with
// `Look, Bytes(n), Pairs(n), Parts(n)`, and a pair as its key and its value, chz_form took 42,915 instructions and not 21,316 for 500 pairs, and
// 13,986 and not 12,014 for a downlink of 16 entries, where msgpuck's check takes 13,161.
pub const MAP: usize = 64;

pub const ARRAY: usize = 128;

// A key comes after fewer elements than this, so that its value may be counted too.
const MOST_BEFORE_KEY: usize = 1023;

// What the lead byte tells of the value at a place.
pub fn quick_value(s: &[u8], at: usize, count: usize, left: usize) -> usize
    ensures is { result ≡ quick_at s.now left Role.value at count }
    ensures bounds { Bounded (length s.now) left at count result }
{
    if s.len() <= at {
        return 0;
    }
    if MOST_ELEMENTS <= count {
        return 0;
    }
    if left == 0 {
        return 0;
    }
    let b = s[at];
    if b < 0x80 {
        return 1;
    }
    told(b, s.len() - at)
}

// What a lead byte tells, where so many bytes are there from it on. The frequent kinds are tested first.
fn told(b: u8, rest: usize) -> usize
    ensures is { result ≡ present rest (quick_of b) }
    ensures bounds { (result ≤ 160) × (result ≤ rest + 160 * (result - 63)) }
{
    if b < 0xC0 {
        return told_low(b, rest);
    }
    told_high(b, rest)
}

// Texts before maps and arrays.
fn told_low(b: u8, rest: usize) -> usize
    requires { b < 0xC0 }
    ensures is { result ≡ present rest (quick_of b) }
    ensures bounds { (result ≤ 160) × (result ≤ rest + 160 * (result - 63)) }
{
    if 0xA0 <= b {
        return within((b - 0x9F) as usize, rest);
    }
    told_any(b, rest)
}

// Numbers before the rest, then negative integers of a byte, then nil, false and true.
fn told_high(b: u8, rest: usize) -> usize
    requires { 0xC0 ≤ b }
    ensures is { result ≡ present rest (quick_of b) }
    ensures bounds { (result ≤ 160) × (result ≤ rest + 160 * (result - 63)) }
{
    if is_number(b) {
        return within(1 + two_to(b % 4), rest);
    }
    // `quick_of` comes to these last, and the next place has to wait for its answer: 1,000 of them took 42,516 instructions.
    if 0xE0 <= b {
        return within(1, rest);
    }
    if b < 0xC4 && b != 0xC1 {
        return within(1, rest);
    }
    told_any(b, rest)
}

// Any lead byte.
fn told_any(b: u8, rest: usize) -> usize
    ensures is { result ≡ present rest (quick_of b) }
    ensures bounds { (result ≤ 160) × (result ≤ rest + 160 * (result - 63)) }
{
    let n = quick_of(b);
    if MAP <= n {
        return n;
    }
    within(n, rest)
}

// n bytes, where so many are there; else 0.
fn within(n: usize, rest: usize) -> usize
    ensures is { result ≡ either (leb n rest) (λ _. n) (λ _. 0) }
    ensures bounds { (result ≤ n) × (result ≤ rest) }
{
    if rest < n { 0 } else { n }
}

// The bytes of the key at a place, where it is a text of A0 to BF and one element more may be counted behind it.
pub fn quick_key(s: &[u8], at: usize, count: usize, left: usize) -> usize
    ensures is { result ≡ quick_at s.now left Role.key at (count + 1) }
    ensures bounds { Bounded (length s.now) left at (count + 1) result }
    ensures short { result ≤ 32 }
{
    if s.len() <= at {
        return 0;
    }
    if MOST_BEFORE_KEY <= count {
        return 0;
    }
    if left == 0 {
        return 0;
    }
    let b = s[at];
    if b < 0xA0 {
        return 0;
    }
    if 0xC0 <= b {
        return 0;
    }
    let n = (b - 0x9F) as usize;
    if s.len() - at < n {
        return 0;
    }
    n
}

// What a lead byte alone tells.
#[tactic(auto, using(crate::proofs::Sizes::sizes))]
pub fn quick_of(b: u8) -> usize
    ensures is { result ≡ quick_of b }
    ensures small { result ≤ 160 }
{
    match b {
        0x00..=0x7F => 1,
        0xA0..=0xBF => usize::from(b - 0x9F),
        0xCA..=0xD3 => 1 + two_to(b % 4),
        0x80..=0x8F => MAP + usize::from(b - 0x80),
        0x90..=0x9F => ARRAY + usize::from(b - 0x90),
        0xC0 => 1,
        0xC1 => 0,
        0xC2..=0xC3 => 1,
        0xC4..=0xC9 => 0,
        0xD4..=0xD8 => 2 + two_to(b - 0xD4),
        0xD9..=0xDF => 0,
        0xE0..=0xFF => 1,
    }
}

// CA to D3: floats and integers of 4, 8, 1, 2, 4, 8, 1, 2, 4 and 8 bytes.
fn is_number(b: u8) -> bool
    ensures { result ≡ is_number b }
{
    matches!(b, 0xCA..=0xD3)
}

// An element without parts.
pub fn is_short(z: usize) -> bool
    ensures { result ≡ is_short z }
{
    0 < z && z < MAP
}
