// Data entries: an array of arrays of numbers from 0 to 255, read in one pass.
ghost use Rattle.std.specs.Prelude.{◌≡◌, ◌≤◌, length};
ghost use Rattle.field.specs.{Kind.Kind, Judge.on_some, Judge.strings_sized, Cell.value_in, Cell.word_of, Cell.views_of, Code.At.cell_at};
ghost use Rattle.field.specs.{Code.Read.tell, Code.Read.read_at, Code.Item.octets_passed, Code.Item.piece_at, Code.Item.pieces_from};
ghost use Rattle.field.specs.Code.Lent.{list_in, entries_at, AreEntries, entries_put};

use crate::Piece;
use crate::array::{array_at, low_run};
use crate::into::{array_into, part_at};

// In a downlink's lent bytes, where the lengths of its data entries begin, and where the entries do.
const LENGTHS: usize = 64;

const ENTRIES: usize = 80;

#[tactic(auto, using(crate::proofs::Entries::entries))]
pub fn pieces_at(s: &[u8], at: usize, many: usize, most: usize, all: usize) -> Option<u64>
    ensures { result ≡ read_at word_of (Kind.pieces many most all) s.now at }
{
    let a = array_at(s, at)?;
    if many < a.size {
        return None;
    }
    pieces_from(s, a.from, a.size, most, all)
}

// The n arrays from a place on.
#[tactic(auto, using(crate::proofs::Entries::fittings))]
fn pieces_from(s: &[u8], from: usize, n: usize, most: usize, all: usize) -> Option<u64>
    ensures { result ≡ tell word_of (on_some (pieces_from most s.now n from) (strings_sized n all)) }
{
    let mut q = from;
    let mut room = all;
    for i in 0..n {
        let piece = piece_at(s, q, most.min(room))?;
        room -= piece.size;
        q = piece.next;
    }
    Some(n as u64)
}

// The array at a place. One that states more parts than it may have is not looked into.
#[tactic(auto, using(crate::proofs::Nested::piece_ats))]
fn piece_at(s: &[u8], at: usize, most: usize) -> Option<Piece>
    ensures { result ≡ piece_at most s.now at }
{
    let a = array_at(s, at)?;
    if most < a.size {
        return None;
    }
    octets_passed(s, a.from, a.size)
}

// The n parts from a place on. A run of bytes below 0x80 goes first.
#[tactic(auto, using(crate::proofs::Passing::passings))]
fn octets_passed(s: &[u8], from: usize, n: usize) -> Option<Piece>
    ensures { result ≡ octets_passed s.now n from }
{
    let run = low_run(s, from, n);
    let mut q = from + run;
    for i in run..n {
        q = part_at(s, q)?.next;
    }
    Some(Piece { size: n, next: q })
}

// The n data entries of a downlink's field, with their lengths, into its lent bytes.
#[tactic(auto, using(crate::proofs::Downlinks::entries_told_in))]
pub fn pieces_into(s: &[u8], p: usize, n: usize, out: &mut [u8])
    requires { (n ≡ word_of (value_in (cell_at (Kind.pieces 16 245 800) s.now p))) × (880 ≤ length out.old) }
    ensures { out.new ≡ entries_put out.old 0 80 (views_of (value_in (cell_at (Kind.pieces 16 245 800) s.now p))).strings }
{
    if 0 < n {
        if let Some(a) = array_at(s, p) {
            entries_into(s, a.from, n, out);
        }
    }
}

// The n arrays from a place on.
#[tactic(auto, using(crate::proofs::PutEntries::entries_left))]
fn entries_into(s: &[u8], from: usize, n: usize, out: &mut [u8])
    requires { AreEntries s.now n from × (880 ≤ length out.old) }
    ensures { out.new ≡ entries_put out.old 0 80 (list_in (entries_at s.now n from)) }
{
    let mut q = from;
    let mut at = ENTRIES;
    for i in 0..n {
        let Some(piece) = array_into(s, q, out, at) else {
            return;
        };
        out[LENGTHS + i] = piece.size as u8;
        at += piece.size;
        q = piece.next;
    }
}
