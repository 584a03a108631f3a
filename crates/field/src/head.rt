// The head of an element with the length that follows it.
ghost use Rattle.std.specs.Prelude.{◌≡◌, ◌≤◌, length};
ghost use Rattle.element.specs.Form.{is_text, is_map, span_of};
ghost use Rattle.field.specs.Code.At.{end_of};
ghost use Rattle.field.specs.Code.Extent.{opened_at, shut, is_body, is_array};

use crate::Opened;
use element::Shape;
use walk::lead::{head_of, two_to};

// The head at a place; Never where there is no byte, where its length is cut and at C1.
#[tactic(auto, using(crate::proofs::Heads::openings))]
pub fn opened_at(s: &[u8], at: usize) -> Opened
    ensures is { result ≡ opened_at s.now at }
    ensures within { result.from ≤ length s.now }
{
    if s.len() <= at {
        return shut();
    }
    let h = head_of(s[at]);
    let wide = h.wide;
    if s.len() - at - 1 < wide {
        return shut();
    }
    let shape = h.shape;
    Opened {
        shape,
        from: at + 1 + wide,
        size: h.more + (octets::big_at(s, at + 1, wide) as usize),
    }
}

fn shut() -> Opened
    ensures { result ≡ shut }
{
    Opened {
        shape: Shape::Never,
        from: 0,
        size: 0,
    }
}

// The place behind a leaf; its own where none stands.
#[tactic(auto, using(crate::proofs::Heads::ends))]
fn end_of(s: &[u8], at: usize) -> usize
    ensures { result ≡ end_of at (span_of s.now at) }
{
    let o = opened_at(s, at);
    if is_body(o.shape) {
        if o.size <= s.len() - o.from {
            return o.from + o.size;
        }
    }
    at
}

// The place behind a number: the lead bytes CA to D3 say its bytes.
#[tactic(auto, using(crate::proofs::Heads::ends))]
pub fn number_end(s: &[u8], at: usize) -> usize
    ensures { result ≡ end_of at (span_of s.now at) }
{
    if s.len() <= at {
        return end_of(s, at);
    }
    let b = s[at];
    if b < 0xCA {
        return end_of(s, at);
    }
    if 0xD4 <= b {
        return end_of(s, at);
    }
    let n = two_to(b % 4);
    if n <= s.len() - at - 1 {
        return at + 1 + n;
    }
    at
}

fn is_body(h: Shape) -> bool
    ensures { result ≡ is_body h }
{
    matches!(h, Shape::Plain | Shape::Text)
}

// The shapes by name, each as the definition of that name: one function that is lent the shape would be `==`, and no plainer.
pub fn is_text(h: Shape) -> bool
    ensures { result ≡ is_text h }
{
    matches!(h, Shape::Text)
}

pub fn is_array(h: Shape) -> bool
    ensures { result ≡ is_array h }
{
    matches!(h, Shape::Array)
}

pub fn is_map(h: Shape) -> bool
    ensures { result ≡ is_map h }
{
    matches!(h, Shape::Map)
}
