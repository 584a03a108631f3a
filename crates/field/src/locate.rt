// Positions: an array of three reals.
ghost use Rattle.std.specs.Prelude.{◌≡◌};
ghost use Rattle.field.specs.{Kind.Kind, Judge.on_some, Judge.three_of, Cell.position_of, Code.Read.tell, Code.Read.read_at};
ghost use Rattle.field.specs.{Code.Item.measure_at, Code.Item.reals_from};

use crate::array::array_at;
use crate::head::number_end;
use crate::real::real_at;
use crate::{Measure, Position};

#[tactic(auto, using(crate::proofs::Positions::locations))]
pub fn located(s: &[u8], at: usize) -> Option<Position>
    ensures { result ≡ read_at position_of Kind.positions s.now at }
{
    let a = array_at(s, at)?;
    if a.size == 3 { three(s, a.from) } else { None }
}

#[tactic(auto, using(crate::proofs::Positions::threes))]
fn three(s: &[u8], from: usize) -> Option<Position>
    ensures { result ≡ tell position_of (on_some (reals_from s.now 3 from) three_of) }
{
    let a = measure_at(s, from)?;
    let b = measure_at(s, a.next)?;
    let c = measure_at(s, b.next)?;
    Some(Position {
        latitude: a.x,
        longitude: b.x,
        altitude: c.x,
    })
}

// A real and the place behind it.
#[tactic(auto, using(crate::proofs::Positions::measures))]
fn measure_at(s: &[u8], at: usize) -> Option<Measure>
    ensures { result ≡ measure_at s.now at }
{
    let x = real_at(s, at)?;
    Some(Measure {
        x,
        next: number_end(s, at),
    })
}
