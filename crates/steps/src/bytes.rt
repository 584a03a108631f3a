// Bytes where they lie, as numbers: sixteen as two, four as one.
ghost use Rattle.std.specs.Prelude.{◌≡◌, ◌+◌, ◌≤◌, length, take, drop};
ghost use Rattle.names.specs.Names.{same_bytes};
ghost use Rattle.octets.specs.Bytes.{put_at};
ghost use Rattle.record.specs.{Record.four_of, Record.sixteen_of, Says.sixteen_bytes};

use octets::{big_at, put_big};
use record::Sixteen;

#[tactic(auto, using(crate::proofs::Sixteens::sixteen_read))]
pub fn sixteen_at(d: &[u8], at: usize) -> Sixteen
    requires { at + 16 ≤ length d.now }
    ensures { result ≡ sixteen_of (take 16 (drop at d.now)) }
{
    Sixteen {
        high: big_at(d, at, 8),
        low: big_at(d, at + 8, 8),
    }
}

pub fn four_of(d: &[u8]) -> u32
    requires { length d.now ≡ 4 }
    ensures { result ≡ four_of d.now }
{
    big_at(d, 0, 4) as u32
}

// Whether the sixteen bytes from a place on are these.
#[tactic(auto, using(crate::proofs::Sixteens::sixteen_same))]
pub fn same_sixteen(d: &[u8], at: usize, x: Sixteen) -> bool
    requires { at + 16 ≤ length d.now }
    ensures { result ≡ same_bytes (take 16 (drop at d.now)) (sixteen_bytes x) }
{
    (big_at(d, at, 8) == x.high) & (big_at(d, at + 8, 8) == x.low)
}

#[tactic(auto, using(crate::proofs::Sixteens::sixteen_put))]
pub fn put_sixteen(d: &mut [u8], at: usize, x: Sixteen)
    requires { at + 16 ≤ length d.old }
    ensures { d.new ≡ put_at d.old at (sixteen_bytes x) }
{
    put_big(d, at, 8, x.high);
    put_big(d, at + 8, 8, x.low);
}
