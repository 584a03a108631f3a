// The value of one field, read at its place in a payload under its kind.
#![tactic(auto)]

mod array;
mod counters;
mod flag;
mod head;
mod into;
mod locate;
mod map;
mod pieces;
mod real;
mod text;
mod version;
mod whole;

ghost use Rattle.std.specs.Prelude.{◌≡◌, ◌≤◌, length};
ghost use Rattle.octets.specs.{Bytes.put_at, Pieces.downlink_bytes};
ghost use Rattle.field.specs.{Kind.Kind, Judge.judge, Cell.value_in, Cell.word_of, Cell.figure_of, Cell.mark_of, Cell.position_of, Cell.release_of, Cell.views_of};
ghost use Rattle.field.specs.{Code.Told.told_of, Code.Told.unkept, Code.Read.place_of};
ghost use Rattle.field.specs.{Code.At.shallow_at, Code.At.cell_at, Code.At.string_filled, Code.Into.read_into};

// Why a field has no value.
#[derive(Clone, Copy, Debug, PartialEq, Eq)]
pub enum Flaw {
    Invalid,
    Missing,
    Twice,
}

// geoLocation's three reals.
#[derive(Clone, Copy)]
pub struct Position {
    pub latitude: f64,
    pub longitude: f64,
    pub altitude: f64,
}

// A version's three numbers.
#[derive(Clone, Copy, Debug, PartialEq, Eq)]
pub struct Released {
    pub major: u16,
    pub minor: u16,
    pub patch: u16,
}

// A head with its length: what stands behind it begins at `from` and has `size` bytes or parts. Never, as at C1, where it is cut.
#[derive(Clone, Copy)]
struct Opened {
    shape: element::Shape,
    from: usize,
    size: usize,
}

// Where the bytes or parts of an element stand.
#[derive(Clone, Copy)]
struct Extent {
    from: usize,
    size: usize,
}

// A part of an array that is a number from 0 to 255, with the place behind it.
#[derive(Clone, Copy)]
struct Octet {
    value: u8,
    next: usize,
}

// Numbers from 0 to 255 behind each other, or an array of them: how many, and the place behind them.
#[derive(Clone, Copy)]
struct Piece {
    size: usize,
    next: usize,
}

// A real of an array, and the place behind it.
#[derive(Clone, Copy)]
struct Measure {
    x: f64,
    next: usize,
}

// A version as far as it is read: its dots, whether a digit stands behind the last of them, and its numbers.
#[derive(Clone, Copy)]
struct Release {
    dots: u8,
    digit: bool,
    first: u16,
    second: u16,
    number: u16,
}

// A call for each kind: one that is lent the kind's reader and what a value is would be no plainer.
// Of each call, p is the place of the field's value: 0 where its key is missing, 1 where its key stands more than once.

// A whole number from minus lo to hi, as 64 bits.
#[tactic(auto, using(crate::proofs::Cells::cells))]
pub fn whole_cell(s: &[u8], p: usize, lo: u64, hi: u64) -> Result<u64, Flaw>
    ensures { result ≡ told_of word_of (cell_at (Kind.wholes lo hi) s.now p) }
{
    whole::whole_at(s, place_of(p)?, lo, hi).ok_or(Flaw::Invalid)
}

#[tactic(auto, using(crate::proofs::Cells::cells))]
pub fn real_cell(s: &[u8], p: usize) -> Result<f64, Flaw>
    ensures { result ≡ told_of figure_of (cell_at Kind.reals s.now p) }
{
    real::real_at(s, place_of(p)?).ok_or(Flaw::Invalid)
}

// A real that single precision holds exactly.
#[tactic(auto, using(crate::proofs::Cells::cells))]
pub fn single_cell(s: &[u8], p: usize) -> Result<f64, Flaw>
    ensures { result ≡ told_of figure_of (cell_at Kind.singles s.now p) }
{
    real::single_at(s, place_of(p)?).ok_or(Flaw::Invalid)
}

#[tactic(auto, using(crate::proofs::Cells::cells))]
pub fn flag_cell(s: &[u8], p: usize) -> Result<bool, Flaw>
    ensures { result ≡ told_of mark_of (cell_at Kind.flags s.now p) }
{
    flag::flag_at(s, place_of(p)?).ok_or(Flaw::Invalid)
}

// A text of lo to hi bytes: how many it has.
#[tactic(auto, using(crate::proofs::Cells::cells))]
pub fn text_cell(s: &[u8], p: usize, lo: usize, hi: usize) -> Result<u64, Flaw>
    ensures { result ≡ told_of word_of (cell_at (Kind.texts lo hi) s.now p) }
{
    text::string_at(s, place_of(p)?, lo, hi).ok_or(Flaw::Invalid)
}

// A text, and a map, that are not kept.
#[tactic(auto, using(crate::proofs::Cells::cells))]
pub fn word_cell(s: &[u8], p: usize) -> Result<(), Flaw>
    ensures { result ≡ told_of unkept (cell_at Kind.words s.now p) }
{
    text::word_at(s, place_of(p)?).ok_or(Flaw::Invalid)
}

#[tactic(auto, using(crate::proofs::Cells::cells))]
pub fn map_cell(s: &[u8], p: usize) -> Result<(), Flaw>
    ensures { result ≡ told_of unkept (cell_at Kind.maps s.now p) }
{
    map::map_at(s, place_of(p)?).ok_or(Flaw::Invalid)
}

#[tactic(auto, using(crate::proofs::Cells::cells))]
pub fn position_cell(s: &[u8], p: usize) -> Result<Position, Flaw>
    ensures { result ≡ told_of position_of (cell_at Kind.positions s.now p) }
{
    locate::located(s, place_of(p)?).ok_or(Flaw::Invalid)
}

#[tactic(auto, using(crate::proofs::Cells::cells))]
pub fn version_cell(s: &[u8], p: usize) -> Result<Released, Flaw>
    ensures { result ≡ told_of release_of (cell_at Kind.versions s.now p) }
{
    version::version_at(s, place_of(p)?).ok_or(Flaw::Invalid)
}

// An array of bytes, as many as the room has space for, and the bytes at the room's start, in one pass. They stop at the first part that is no
// byte. The room is as it was where there is no array, or it has too many parts.
#[tactic(auto, using(crate::proofs::Intos::reads))]
pub fn octets_read(s: &[u8], p: usize, out: &mut [u8]) -> Result<u64, Flaw>
    ensures told { result ≡ told_of word_of (cell_at (Kind.arrays 0 (length out.old)) s.now p) }
    ensures room { out.new ≡ read_into s.now p out.old }
{
    into::octets_into(s, place_of(p)?, out).ok_or(Flaw::Invalid)
}

// An array of at most `many` numbers from 0 to 2^32 - 1: how many it has.
#[tactic(auto, using(crate::proofs::Cells::cells))]
pub fn counters_cell(s: &[u8], p: usize, many: usize) -> Result<u64, Flaw>
    ensures { result ≡ told_of word_of (cell_at (Kind.counters many) s.now p) }
{
    counters::counters_at(s, place_of(p)?, many).ok_or(Flaw::Invalid)
}

// An array of at most `many` arrays of bytes, each of at most `most` and together of at most `all`: how many arrays it has.
#[tactic(auto, using(crate::proofs::Cells::cells))]
pub fn pieces_cell(s: &[u8], p: usize, many: usize, most: usize, all: usize) -> Result<u64, Flaw>
    ensures { result ≡ told_of word_of (cell_at (Kind.pieces many most all) s.now p) }
{
    pieces::pieces_at(s, place_of(p)?, many, most, all).ok_or(Flaw::Invalid)
}

// The lent bytes of a downlink, from the room's start on: its counters, at q, and its data entries, n of them at p. Zeros for what is not there.
#[tactic(auto, using(crate::proofs::Downlinks::downlinks))]
pub fn downlink_into(s: &[u8], q: usize, p: usize, n: usize, out: &mut [u8])
    requires { (n ≡ word_of (value_in (cell_at (Kind.pieces 16 245 800) s.now p))) × (880 ≤ length out.old) }
    ensures { out.new ≡ put_at out.old 0 (downlink_bytes (views_of (value_in (cell_at (Kind.counters 16) s.now q))).counts (views_of (value_in (cell_at (Kind.pieces 16 245 800) s.now p))).strings) }
{
    octets::clear(out, 0, 80);
    counters::counters_into(s, q, out);
    pieces::pieces_into(s, p, n, out);
}

// The bytes of the text at a place, from the room's start on; nothing where no text stands or its bytes have no room.
#[tactic(auto, using(crate::proofs::Strings::texts_into))]
pub fn text_into(s: &[u8], p: usize, out: &mut [u8])
    ensures { out.new ≡ string_filled (judge (Kind.texts 0 (length out.old)) (shallow_at s.now p)) out.old }
{
    if let Some(t) = text::text_at(s, p) {
        text::copy(s, t.from, t.size, out);
    }
}

// The place of a field that has one.
fn place_of(p: usize) -> Result<usize, Flaw>
    ensures { result ≡ place_of p }
{
    match p {
        0 => Err(Flaw::Missing),
        1 => Err(Flaw::Twice),
        _ => Ok(p),
    }
}
