// A downlink's counters and data entries, each from its place in the lent bytes.
ghost use Rattle.std.specs.Prelude.{◌≡◌, ◌+◌, ◌≤◌, length};
ghost use Rattle.octets.specs.Pieces.{counters_lent, lengths_lent, pieces_lent, sum_of};
ghost use Rattle.forms.specs.Code.Put.{Put, put, put_parts, number_parts, piece_parts};

use crate::{put_octets, put_word};

// Where the lengths of the data entries stand, a byte each.
const LENGTHS: usize = 64;

// Where the entries begin.
const PIECES: usize = 80;

// The first n counters.
#[tactic(auto, using(crate::proofs::Downlinks::counters))]
pub fn each_counter(room: &mut [u8], at: usize, d: &[u8], n: usize) -> usize
    requires { (n ≤ 16) × (64 ≤ length d.now) }
    ensures { ◌≡◌ {A = Put} (put room.new result) (put_parts (number_parts (counters_lent n d.now)) (put room.old at)) }
{
    let mut next = at;
    for i in 0..n {
        next = put_word(room, next, octets::little_at(d, 4 * i, 4));
    }
    next
}

// The first n data entries, one behind the other.
#[tactic(auto, using(crate::proofs::Downlinks::entries))]
pub fn each_piece(room: &mut [u8], at: usize, d: &[u8], n: usize) -> usize
    requires { (n ≤ 16) × (80 + sum_of (lengths_lent n d.now) ≤ length d.now) }
    ensures { ◌≡◌ {A = Put} (put room.new result) (put_parts (piece_parts (pieces_lent n d.now)) (put room.old at)) }
{
    let mut next = at;
    let mut from = PIECES;
    for size in &d[LENGTHS..LENGTHS + n] {
        next = put_octets(room, next, &d[from..], *size);
        from += usize::from(*size);
    }
    next
}
