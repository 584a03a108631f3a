// The sixteen places of one side.
ghost use Rattle.std.specs.Prelude.{◌≡◌, ◌+◌, ◌≤◌, ◌<◌, length, IfSome};
ghost use Rattle.session.specs.Place.{matches, free_place, entry_place, entry};
ghost use Rattle.session.specs.{Image.session_at};
ghost use Rattle.steps.specs.Code.Lies.{Found, side_ids, side_kinds, entries_of};

use crate::lies::{PLACES, id_at};
use crate::side::Side;

// The lowest free place.
#[tactic(auto, using(crate::proofs::Searching::free_here, crate::proofs::Searching::free_later, crate::proofs::Searching::free_none))]
pub fn free_place(d: &[u8], side: Side) -> Option<usize>
    requires { side_ids side + 128 ≤ length d.now }
    ensures is { Found result (free_place (entries_of side (session_at d.now))) }
    ensures few { IfSome result (λ i. i < 16) }
{
    let ids = side.ids();
    for i in 0..PLACES {
        if id_at(d, ids + 8 * i) == 0 {
            return Some(i);
        }
    }
    None
}

// An entry with this ID and kind; ID 0 is free and never matches.
fn is_match(id: i64, kind: u8, wanted: i64, start: u8) -> bool
    ensures { result ≡ matches wanted start (entry id kind) }
{
    (id != 0) & (id == wanted) & (kind == start)
}

// The lowest place with this ID and kind.
#[tactic(auto, using(crate::proofs::Searching::match_here, crate::proofs::Searching::match_later, crate::proofs::Searching::match_none))]
pub fn place_of(d: &[u8], side: Side, id: i64, start: u8) -> Option<usize>
    requires { (side_ids side + 128 ≤ length d.now) × (side_kinds side + 16 ≤ length d.now) }
    ensures is { Found result (entry_place id start (entries_of side (session_at d.now))) }
    ensures few { IfSome result (λ i. i < 16) }
{
    let ids = side.ids();
    let kinds = side.kinds();
    for i in 0..PLACES {
        if is_match(id_at(d, ids + 8 * i), d[kinds + i], id, start) {
            return Some(i);
        }
    }
    None
}
