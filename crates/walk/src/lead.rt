// What a lead byte says, by ranges as document 01 lists them.
ghost use Rattle.std.specs.Prelude.{◌≡◌, ◌≤◌};
ghost use Rattle.element.specs.{Lead.head_of, Form.is_text, Form.is_map};
ghost use Rattle.walk.specs.Code.Short.{Announces, two_to};

use element::{Head, Shape};

// The shape, the bytes of length and what is added to that length.
#[tactic(auto, using(crate::proofs::Leads::sayings))]
pub fn head_of(b: u8) -> Head
    ensures { Announces b result }
{
    match b {
        0x00..=0x7F => head(Shape::Plain, 0, 0),
        0x80..=0x8F => head(Shape::Map, 0, usize::from(b - 0x80)),
        0x90..=0x9F => head(Shape::Array, 0, usize::from(b - 0x90)),
        0xA0..=0xBF => head(Shape::Text, 0, usize::from(b - 0xA0)),
        0xC0 => head(Shape::Plain, 0, 0),
        0xC1 => head(Shape::Never, 0, 0),
        0xC2..=0xC3 => head(Shape::Plain, 0, 0),
        0xC4..=0xC6 => head(Shape::Plain, two_to(b - 0xC4), 0),
        0xC7..=0xC9 => head(Shape::Plain, two_to(b - 0xC7), 1),
        0xCA..=0xD3 => head(Shape::Plain, 0, two_to(b % 4)),
        0xD4..=0xD8 => head(Shape::Plain, 0, 1 + two_to(b - 0xD4)),
        0xD9..=0xDB => head(Shape::Text, two_to(b - 0xD9), 0),
        0xDC..=0xDD => head(Shape::Array, two_to(b - 0xDB), 0),
        0xDE..=0xDF => head(Shape::Map, two_to(b - 0xDD), 0),
        0xE0..=0xFF => head(Shape::Plain, 0, 0),
    }
}

fn head(shape: Shape, wide: usize, more: usize) -> Head
    ensures { result ≡ record { shape = shape; wide = wide; more = more } }
{
    Head { shape, wide, more }
}

// 2 to the k, for the widths that lead bytes say.
#[tactic(auto, using(crate::proofs::Leads::twos))]
pub fn two_to(k: u8) -> usize
    ensures is { result ≡ two_to k }
    ensures small { result ≤ 16 }
{
    1 << k.min(4)
}

// Texts and maps, each as the definition of that name: two ranges, and one function that is lent them would be no plainer.
#[tactic(auto, using(crate::proofs::Leads::texts))]
pub fn is_text(b: u8) -> bool
    ensures { result ≡ is_text (head_of b).shape }
{
    matches!(b, 0xA0..=0xBF | 0xD9..=0xDB)
}

#[tactic(auto, using(crate::proofs::Leads::maps))]
pub fn is_map(b: u8) -> bool
    ensures { result ≡ is_map (head_of b).shape }
{
    matches!(b, 0x80..=0x8F | 0xDE..=0xDF)
}
