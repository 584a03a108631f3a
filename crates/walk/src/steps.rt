// The element reader and the container readers, which call each other: the levels left fall at each round,
// the items left at each turn of a loop. Place and count go in as two numbers: most calls make them by sums, as `at + 1, count + 1`,
// where a `Next { at: at + 1, count: count + 1 }` says no more.
ghost use mathlib.Core.{Path.◌≡◌, Bool.true, Bool.false};
ghost use Rattle.std.specs.Prelude.{◌+◌, ◌≤◌, ◌<◌, length, get_or};
ghost use Rattle.element.specs.Form.{Role, body_of, fault_of, span_of, element_of};
ghost use Rattle.element.specs.Code.Items.{items_of};
ghost use Rattle.walk.specs.Code.Short.{quick_after, Bounded, After, Opens, QuickPair};
ghost use Rattle.walk.specs.Code.Turn.{role_of, pair_of};

use crate::lead::{head_of, is_text};
use crate::run::octet_run;
use crate::{MOST_ELEMENTS, short};
use element::{Head, Next, Shape, Span};
use refusal::{Broken, Refusal};

// The element at a place, after `count` elements, with `left` levels: where the walk goes on, or its break.
#[cycle(any_pair_element_held_held_pair_pair_pairs_value_values)]
#[tactic(auto, using(crate::proofs::Elements::elements, crate::proofs::Turns::items, crate::proofs::Turns::turns))]
pub fn element(s: &[u8], at: usize, count: usize, left: usize, key: bool) -> Result<Next, Broken>
    ensures { result ≡ element_of s.now left (role_of key) at count }
{
    if let Some(refusal) = fault(s, at, count, left, key) {
        return Err(Broken { refusal, place: at });
    }
    match span_at(s, at) {
        Span::Cut => Err(Broken {
            refusal: Refusal::Cut,
            place: at,
        }),
        Span::Ends(behind) => Ok(Next {
            at: behind,
            count: count + 1,
        }),
        Span::Holds { from, parts, keyed } => {
            if keyed {
                pairs(s, from, count + 1, left - 1, parts)
            } else {
                values(s, from, count + 1, left - 1, parts)
            }
        }
    }
}

// The key at a place, without a call where its lead byte tells of it.
#[tactic(auto, using(crate::proofs::Turns::items))]
pub fn key(s: &[u8], at: usize, count: usize, left: usize) -> Result<Next, Broken>
    ensures { result ≡ element_of s.now left Role.key at count }
{
    let y = short::quick_key(s, at, count, left);
    if y == 0 {
        return element(s, at, count, left, true);
    }
    Ok(Next {
        at: at + y,
        count: count + 1,
    })
}

// The value or part at a place, without a call where its lead byte tells of it.
#[cycle(any_pair_element_held_held_pair_pair_pairs_value_values)]
#[tactic(auto, using(crate::proofs::Elements::elements, crate::proofs::Turns::items, crate::proofs::Turns::turns))]
pub fn value(s: &[u8], at: usize, count: usize, left: usize) -> Result<Next, Broken>
    ensures { result ≡ element_of s.now left Role.value at count }
{
    let z = short::quick_value(s, at, count, left);
    if short::is_short(z) {
        return Ok(Next {
            at: at + z,
            count: count + 1,
        });
    }
    held(s, at, count, left, z)
}

// The n parts of an array from a place on. Most arrays hold bytes: their parts go first, in a loop of their own.
#[cycle(any_pair_element_held_held_pair_pair_pairs_value_values)]
#[tactic(auto, using(crate::proofs::Elements::elements, crate::proofs::Turns::items, crate::proofs::Turns::turns))]
pub fn values(s: &[u8], at: usize, count: usize, left: usize, n: usize) -> Result<Next, Broken>
    ensures { result ≡ items_of s.now left false n at count }
{
    let run = octet_run(s, at, count, left, n);
    let mut next = Next {
        at: run.at,
        count: count + run.parts,
    };
    for _ in run.parts..n {
        next = value(s, next.at, next.count, left)?;
    }
    Ok(next)
}

// The n pairs of a map from a place on.
#[cycle(any_pair_element_held_held_pair_pair_pairs_value_values)]
#[tactic(auto, using(crate::proofs::Elements::elements, crate::proofs::Turns::items, crate::proofs::Turns::turns))]
pub fn pairs(s: &[u8], at: usize, count: usize, left: usize, n: usize) -> Result<Next, Broken>
    ensures { result ≡ items_of s.now left true n at count }
{
    let mut next = Next { at, count };
    for _ in 0..n {
        next = pair(s, next.at, next.count, left)?;
    }
    Ok(next)
}

// A key and its value, without a call where their lead bytes tell of both.
#[cycle(any_pair_element_held_held_pair_pair_pairs_value_values)]
#[tactic(auto, using(crate::proofs::Elements::elements, crate::proofs::Turns::items, crate::proofs::Turns::turns))]
fn pair(s: &[u8], at: usize, count: usize, left: usize) -> Result<Next, Broken>
    ensures { result ≡ pair_of s.now left at count }
{
    let y = short::quick_key(s, at, count, left);
    let z = quick_after(s, at, count, left, y);
    if short::is_short(z) {
        return Ok(Next {
            at: at + y + z,
            count: count + 2,
        });
    }
    held_pair(s, at, count, left, y, z)
}

// A key and its value, where the value is not short.
#[cycle(any_pair_element_held_held_pair_pair_pairs_value_values)]
#[tactic(auto, using(crate::proofs::Elements::elements, crate::proofs::Turns::items, crate::proofs::Turns::turns))]
fn held_pair(
    s: &[u8],
    at: usize,
    count: usize,
    left: usize,
    y: usize,
    z: usize,
) -> Result<Next, Broken>
    requires { QuickPair s.now left at count y z }
    ensures { result ≡ pair_of s.now left at count }
{
    if z == 0 {
        return any_pair(s, at, count, left);
    }
    if z < short::ARRAY {
        return apart(pairs(s, at + y + 1, count + 2, left - 1, z - short::MAP));
    }
    apart(values(s, at + y + 1, count + 2, left - 1, z - short::ARRAY))
}

// The answer itself, by its parts: handed on whole it goes through memory, where the next place waits for it. With whole ones chz_form
// took 1.8 times as long for 450 pairs with empty arrays.
fn apart(answer: Result<Next, Broken>) -> Result<Next, Broken>
    ensures { result ≡ answer }
{
    match answer {
        Ok(next) => Ok(next),
        Err(broken) => Err(broken),
    }
}

// A key and its value, each by the element reader.
#[cycle(any_pair_element_held_held_pair_pair_pairs_value_values)]
#[tactic(auto, using(crate::proofs::Elements::elements, crate::proofs::Turns::items, crate::proofs::Turns::turns))]
fn any_pair(s: &[u8], at: usize, count: usize, left: usize) -> Result<Next, Broken>
    ensures { result ≡ pair_of s.now left at count }
{
    let key = element(s, at, count, left, true)?;
    apart(element(s, key.at, key.count, left, false))
}

// A value or part that is not short.
#[cycle(any_pair_element_held_held_pair_pair_pairs_value_values)]
#[tactic(auto, using(crate::proofs::Elements::elements, crate::proofs::Turns::items, crate::proofs::Turns::turns))]
fn held(s: &[u8], at: usize, count: usize, left: usize, z: usize) -> Result<Next, Broken>
    requires { Opens s.now left at count z }
    ensures { result ≡ element_of s.now left Role.value at count }
{
    if z == 0 {
        return element(s, at, count, left, false);
    }
    if z < short::ARRAY {
        return pairs(s, at + 1, count + 1, left - 1, z - short::MAP);
    }
    values(s, at + 1, count + 1, left - 1, z - short::ARRAY)
}

// The value behind a key of y bytes; 0 where there is no such key, as `short` tells it: an enum was counted there, and costs too much.
#[tactic(auto, using(crate::proofs::Quick::afters))]
fn quick_after(s: &[u8], at: usize, count: usize, left: usize, y: usize) -> usize
    requires { (Bounded (length s.now) left at (count + 1) y) × (y ≤ 32) }
    ensures is { result ≡ quick_after s.now left at count y }
    ensures bounds { After (length s.now) left at count y result }
{
    if y == 0 {
        return 0;
    }
    short::quick_value(s, at + y, count + 1, left)
}

// The first test that the element fails before its length is read, if it fails one.
#[tactic(auto, using(crate::proofs::Elements::faults))]
fn fault(s: &[u8], at: usize, count: usize, left: usize, key: bool) -> Option<Refusal>
    ensures { result ≡ fault_of s.now left (role_of key) at count }
{
    if s.len() <= at {
        return Some(Refusal::Cut);
    }
    let b = s[at];
    if b == 0xC1 {
        return Some(Refusal::NeverUsed);
    }
    if MOST_ELEMENTS <= count {
        return Some(Refusal::TooManyElements);
    }
    if left == 0 {
        return Some(Refusal::TooDeep);
    }
    if key && !is_text(b) {
        return Some(Refusal::KeyNotText);
    }
    None
}

// Where a body of n bytes ends, in a payload of len bytes.
#[tactic(auto, using(crate::proofs::Elements::bodies))]
fn body(len: usize, from: usize, n: usize) -> Span
    requires { from ≤ len }
    ensures { result ≡ body_of len from n }
{
    if n <= len - from {
        Span::Ends(from + n)
    } else {
        Span::Cut
    }
}

// What stands behind the head at a place. Byte arrays of more than fifteen parts have the head DC: they need no table of heads.
fn span_at(s: &[u8], at: usize) -> Span
    requires { at < length s.now }
    ensures { result ≡ span_of s.now at }
{
    if s[at] == 0xDC {
        return long_array(s, at);
    }
    any_span(s, at)
}

// The same of an array with two bytes of length.
#[tactic(auto, using(crate::proofs::Elements::longs))]
fn long_array(s: &[u8], at: usize) -> Span
    requires { (at < length s.now) × (get_or s.now at 0 ≡ 0xDC) }
    ensures { result ≡ span_of s.now at }
{
    if s.len() - at - 1 < 2 {
        return Span::Cut;
    }
    Span::Holds {
        from: at + 3,
        parts: octets::big_at(s, at + 1, 2) as usize,
        keyed: false,
    }
}

// The same of any head.
fn any_span(s: &[u8], at: usize) -> Span
    requires { at < length s.now }
    ensures { result ≡ span_of s.now at }
{
    let Head { shape, wide, more } = head_of(s[at]);
    if s.len() - at - 1 < wide {
        return Span::Cut;
    }
    let from = at + 1 + wide;
    let n = more + (octets::big_at(s, at + 1, wide) as usize);
    match shape {
        Shape::Never => Span::Cut,
        // Each by itself: at an arm of two kinds a proof has neither's equation.
        Shape::Plain => body(s.len(), from, n),
        Shape::Text => body(s.len(), from, n),
        Shape::Array => Span::Holds {
            from,
            parts: n,
            keyed: false,
        },
        Shape::Map => Span::Holds {
            from,
            parts: n,
            keyed: true,
        },
    }
}
