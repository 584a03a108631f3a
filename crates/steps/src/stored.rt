// What a step stores: nothing but the bytes that it names.
ghost use Rattle.std.specs.Prelude.{◌≡◌, ◌<◌};
ghost use Rattle.record.specs.Says.{sixteen_bytes};
ghost use Rattle.session.specs.{Place.taken, Place.freed, Arrive.begun_with};
ghost use Rattle.session.specs.{Image.session_image, Image.session_at};
ghost use Rattle.steps.specs.Code.Lies.{Lies, entries_of, bound_of, with_side};

use crate::bytes::put_sixteen;
use crate::lies;
use crate::side::Side;
use octets::{bits_of, clear, put_little};
use record::Sixteen;

// The highest and the lowest ID, and the entries of both sides: so many bytes between bsEui and the UUIDs.
const OPERATIONS: usize = 304;

// A place is taken by an operation of a side, whose ID is the side's bound from then on.
#[tactic(auto, using(crate::proofs::Storing::in_bytes, crate::proofs::Storing::side_taken))]
pub fn take(d: &mut [u8], side: Side, i: usize, id: i64, kind: u8)
    requires { Lies d.old × (i < 16) }
    ensures { d.new ≡ session_image (with_side side (session_at d.old) id (taken (entries_of side (session_at d.old)) i id kind)) }
{
    let bits = bits_of(id);
    put_little(d, side.ids() + 8 * i, 8, bits);
    d[side.kinds() + i] = kind;
    put_little(d, side.bound(), 8, bits);
}

// A place is free again; the bound stays.
#[tactic(auto, using(crate::proofs::Storing::in_bytes, crate::proofs::Storing::side_freed))]
pub fn free(d: &mut [u8], side: Side, i: usize)
    requires { Lies d.old × (i < 16) }
    ensures { d.new ≡ session_image (with_side side (session_at d.old) (bound_of side (session_at d.old)) (freed (entries_of side (session_at d.old)) i)) }
{
    put_little(d, side.ids() + 8 * i, 8, 0);
    d[side.kinds() + i] = 0;
}

// IDs and open operations are cleared; bsEui, snBsUuid and the host's new UUID are taken.
pub fn begin_anew(d: &mut [u8], eui: u64, station: Sixteen, own: Sixteen)
    requires { Lies d.old }
    ensures { d.new ≡ session_image (begun_with eui (sixteen_bytes station) (sixteen_bytes own)) }
{
    put_little(d, 0, 8, eui);
    clear(d, lies::HIGHEST, OPERATIONS);
    put_sixteen(d, lies::BS_UUID, station);
    put_sixteen(d, lies::SC_UUID, own);
    d[lies::STATE] = lies::CONNECTING;
    d[lies::STORED] = 0;
}
