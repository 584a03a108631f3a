// Maps, which are checked for type alone.
ghost use Rattle.std.specs.Prelude.{◌≡◌};
ghost use Rattle.field.specs.{Kind.Kind, Code.Told.unkept, Code.Read.read_at};

use crate::head::{is_map, opened_at};

#[tactic(auto, using(crate::proofs::Views::maps))]
pub fn map_at(s: &[u8], at: usize) -> Option<()>
    ensures { result ≡ read_at unkept Kind.maps s.now at }
{
    let o = opened_at(s, at);
    if is_map(o.shape) { Some(()) } else { None }
}
