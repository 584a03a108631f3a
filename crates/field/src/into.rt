// An array of numbers from 0 to 255 read into a room in one pass: each part is copied as it is looked at.
ghost use Rattle.std.specs.Prelude.{◌≡◌, ◌+◌, ◌-◌, ◌≤◌, length};
ghost use Rattle.octets.specs.Bytes.{put_at};
ghost use Rattle.field.specs.{Kind.Kind, Cell.word_of, Code.Into.lead_into, Code.Read.read_at};
ghost use Rattle.field.specs.Code.Item.{octet_at, leading_from, octets_passed, piece_at};

use crate::{Octet, Piece, array};

// The array at a place, as the value of a field: how many bytes it has, which stand from the room's start on.
#[tactic(auto, using(crate::proofs::Intos::octets_intos))]
pub fn octets_into(s: &[u8], at: usize, out: &mut [u8]) -> Option<u64>
    ensures told { result ≡ read_at word_of (Kind.arrays 0 (length out.old)) s.now at }
    ensures room { out.new ≡ lead_into s.now at out.old 0 }
{
    let piece = array_into(s, at, out, 0)?;
    Some(piece.size as u64)
}

// The array at a place, into the room from another place on, where it has space for the parts.
#[tactic(auto, using(crate::proofs::Intos::array_intos))]
pub fn array_into(s: &[u8], at: usize, out: &mut [u8], to: usize) -> Option<Piece>
    requires { to ≤ length out.old }
    ensures passed { result ≡ piece_at (length out.old - to) s.now at }
    ensures room { out.new ≡ lead_into s.now at out.old to }
{
    let a = array::array_at(s, at)?;
    if out.len() - to < a.size {
        return None;
    }
    parts_into(s, a.from, a.size, out, to)
}

// The n parts from a place on, into the room from another place on. A run of bytes below 0x80 goes first.
#[tactic(auto, using(crate::proofs::Intos::leadings))]
fn parts_into(s: &[u8], from: usize, n: usize, out: &mut [u8], to: usize) -> Option<Piece>
    requires { to + n ≤ length out.old }
    ensures passed { result ≡ octets_passed s.now n from }
    ensures room { out.new ≡ put_at out.old to (leading_from s.now n from) }
{
    let run = array::low_run(s, from, n);
    // Byte by byte: `copy_from_slice` of a part would ask that the array begins within the bytes, which no run of none tells.
    for i in 0..run {
        out[to + i] = s[from + i];
    }
    let mut q = from + run;
    for i in run..n {
        let part = part_at(s, q)?;
        out[to + i] = part.value;
        q = part.next;
    }
    Some(Piece { size: n, next: q })
}

// The number at a place. Most are written in one byte, or in one behind CC; where two bytes are there, one test is enough for both.
#[inline(always)]
#[tactic(auto, using(crate::proofs::Octets::parts))]
pub fn part_at(s: &[u8], at: usize) -> Option<Octet>
    ensures { result ≡ octet_at s.now at }
{
    if octets::is_there(s.len(), at, 2) {
        let b = s[at];
        if b < 0x80 {
            return Some(Octet {
                value: b,
                next: at + 1,
            });
        }
        if b == 0xCC {
            return Some(Octet {
                value: s[at + 1],
                next: at + 2,
            });
        }
    }
    array::octet_at(s, at)
}
