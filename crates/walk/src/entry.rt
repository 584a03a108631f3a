// What an entry of the table says.
ghost use Rattle.std.specs.Prelude.{◌≡◌, ◌≤◌};
ghost use Rattle.element.specs.Form.{is_text, is_map};
ghost use Rattle.walk.specs.Code.Table.{head_in};

use element::{Head, Shape};

// The head: below C0 no bytes of length follow.
#[tactic(auto, using(crate::proofs::Entries::heads))]
pub fn head_in(e: u8) -> Head
    ensures { result ≡ head_in e }
{
    match e {
        0x00..=0x5F => Head {
            shape: Shape::Plain,
            wide: 0,
            more: usize::from(e % 32),
        },
        0x60..=0x7F => Head {
            shape: Shape::Text,
            wide: 0,
            more: usize::from(e - 0x60),
        },
        0x80..=0x9F => Head {
            shape: Shape::Map,
            wide: 0,
            more: usize::from(e - 0x80),
        },
        0xA0..=0xBF => Head {
            shape: Shape::Array,
            wide: 0,
            more: usize::from(e - 0xA0),
        },
        0xC0..=0xFF => sized_in(e),
    }
}

// The same with bytes of length: bin and ext, texts, arrays, maps.
#[tactic(auto, using(crate::proofs::Entries::heads))]
fn sized_in(e: u8) -> Head
    requires { 0xC0 ≤ e }
    ensures { result ≡ head_in e }
{
    if 0xE0 < e {
        return Head {
            shape: Shape::Map,
            wide: usize::from(e - 0xE0),
            more: 0,
        };
    }
    let wide = usize::from(e % 8);
    if wide == 0 {
        return Head {
            shape: Shape::Never,
            wide: 0,
            more: 0,
        };
    }
    match e {
        0x00..=0xCF => Head {
            shape: Shape::Plain,
            wide,
            more: usize::from(e / 8 % 2),
        },
        0xD0..=0xD7 => Head {
            shape: Shape::Text,
            wide,
            more: 0,
        },
        0xD8..=0xFF => Head {
            shape: Shape::Array,
            wide,
            more: 0,
        },
    }
}

// As `lead` has them: two ranges each, no plainer as one function.
#[tactic(auto, using(crate::proofs::Entries::texts))]
pub fn text_in(e: u8) -> bool
    ensures { result ≡ is_text (head_in e).shape }
{
    matches!(e, 0x60..=0x7F | 0xD1..=0xD7)
}

#[tactic(auto, using(crate::proofs::Entries::maps))]
pub fn map_in(e: u8) -> bool
    ensures { result ≡ is_map (head_in e).shape }
{
    matches!(e, 0x80..=0x9F | 0xE1..=0xFF)
}
