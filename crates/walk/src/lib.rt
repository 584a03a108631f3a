// The form of one MessagePack payload (document 01, "Elements"): a walk over its elements that gives the first
// break with its place, or the count of elements. It takes any bytes; no stated length is trusted; it ends
// because the levels left or the items left fall, and it visits at most 1,024 elements.
#![tactic(auto)]

pub mod entry;
pub mod lead;
mod run;
mod short;
pub mod steps;
pub mod table;

ghost use Rattle.std.specs.Prelude.{◌≡◌, ◌<◌, length};
ghost use Rattle.element.specs.Form.{Role, element_of, walk_of};

use element::Next;
use refusal::{Broken, Refusal};

// Document 01: at most so many elements, at most so many levels.
pub const MOST_ELEMENTS: usize = 1024;

pub const MOST_LEVELS: usize = 8;

const BELOW_OUTER: usize = 7;

// The count of the elements of a whole payload, or a refusal and the place of the first break.
#[tactic(auto, using(crate::proofs::Outermost::walks))]
pub fn walk(s: &[u8]) -> Result<usize, Broken>
    ensures { result ≡ walk_of s.now }
{
    if !octets::is_size(s.len()) {
        return Err(Broken {
            refusal: Refusal::Size,
            place: 0,
        });
    }
    let Next { at, count } = outer(s)?;
    if at < s.len() {
        return Err(Broken {
            refusal: Refusal::LeftOver,
            place: at,
        });
    }
    Ok(count)
}

// The outer element: a map, with eight levels.
#[tactic(auto, using(crate::proofs::Outermost::outers))]
fn outer(s: &[u8]) -> Result<Next, Broken>
    requires { 0 < length s.now }
    ensures { result ≡ element_of s.now 8 Role.outer 0 0 }
{
    let b = s[0];
    if matches!(b, 0x80..=0x8F) {
        return steps::pairs(s, 1, 1, BELOW_OUTER, usize::from(b - 0x80));
    }
    if b == 0xC1 {
        return Err(Broken {
            refusal: Refusal::NeverUsed,
            place: 0,
        });
    }
    if lead::is_map(b) {
        return steps::element(s, 0, 0, MOST_LEVELS, false);
    }
    Err(Broken {
        refusal: Refusal::OuterNotMap,
        place: 0,
    })
}
