// A key and its value. The key is lent with its length in front, as it is written; where the field is not there nothing is written.
ghost use mathlib.Core.{Path.◌≡◌, Bool.true, Bool.not, List.List};
ghost use Rattle.std.specs.Prelude.{ℕ, ◌+◌, ◌≤◌};
ghost use lib.{Dec.eqb, IntN.pos, ListN.length, ListN.take};
ghost use Rattle.octets.specs.{Bytes.big_bytes, Pieces.counters_lent, Pieces.lengths_lent, Pieces.pieces_lent, Pieces.sum_of};
ghost use Rattle.forms.specs.Code.Put.{Put, put, put_parts, whole_parts, real_parts, mark_parts, text_parts, numbers_parts, pieces_parts};
ghost use Rattle.record.specs.Says.{sixteen_bytes};
ghost use Rattle.writer.specs.Code.Parts.{text, pair_part, maybe_part, place_parts, release_parts};

use field::Position;
use message::{Maybe, Version};
use record::Sixteen;

// A value as it is written behind its key.
pub trait Value: Copy {
    // The parts of its bytes.
    ghost parts: { Self → List (List ℕ) };

    fn write(self, room: &mut [u8], at: usize) -> usize
        ensures { ◌≡◌ {A = Put} (put room.new result) (put_parts (parts self) (put room.old at)) };
}

impl Value for u64 {
    ghost parts = { λ x. whole_parts (pos x) };

    fn write(self, room: &mut [u8], at: usize) -> usize {
        forms::put_word(room, at, self)
    }
}

impl Value for u8 {
    ghost parts = { λ x. whole_parts (pos x) };

    fn write(self, room: &mut [u8], at: usize) -> usize {
        forms::put_word(room, at, u64::from(self))
    }
}

impl Value for u16 {
    ghost parts = { λ x. whole_parts (pos x) };

    fn write(self, room: &mut [u8], at: usize) -> usize {
        forms::put_word(room, at, u64::from(self))
    }
}

impl Value for u32 {
    ghost parts = { λ x. whole_parts (pos x) };

    fn write(self, room: &mut [u8], at: usize) -> usize {
        forms::put_word(room, at, u64::from(self))
    }
}

impl Value for i64 {
    ghost parts = { λ x. whole_parts x };

    #[tactic(auto, using(crate::proofs::Putting::signed_put))]
    fn write(self, room: &mut [u8], at: usize) -> usize {
        forms::put_id(room, at, self)
    }
}

impl Value for i32 {
    ghost parts = { λ x. whole_parts x };

    #[tactic(auto, using(crate::proofs::Putting::code_put, crate::proofs::Putting::code_wide))]
    fn write(self, room: &mut [u8], at: usize) -> usize {
        forms::put_id(room, at, i64::from(self))
    }
}

impl Value for bool {
    ghost parts = { λ x. mark_parts x };

    fn write(self, room: &mut [u8], at: usize) -> usize {
        forms::put_mark(room, at, self)
    }
}

impl Value for f64 {
    ghost parts = { λ x. real_parts x };

    fn write(self, room: &mut [u8], at: usize) -> usize {
        forms::put_real(room, at, self)
    }
}

impl Value for Position {
    ghost parts = { λ x. place_parts x };

    fn write(self, room: &mut [u8], at: usize) -> usize {
        forms::put_position(room, at, self.latitude, self.longitude, self.altitude)
    }
}

impl Value for Version {
    ghost parts = { λ x. release_parts x };

    fn write(self, room: &mut [u8], at: usize) -> usize {
        forms::put_version(room, at, self.major, self.minor, self.patch)
    }
}

#[tactic(auto, using(crate::proofs::Putting::pairs))]
pub fn field<V: Value>(room: &mut [u8], at: usize, here: bool, key: &[u8], x: V) -> usize
    ensures { ◌≡◌ {A = Put} (put room.new result) (put_parts (pair_part here key.now (V.parts x)) (put room.old at)) }
{
    if !here {
        return at;
    }
    let next = forms::put_run(room, at, key);
    x.write(room, next)
}

pub fn maybe<V: Value>(room: &mut [u8], at: usize, key: &[u8], x: Maybe<V>) -> usize
    ensures { ◌≡◌ {A = Put} (put room.new result) (put_parts (maybe_part V.parts key.now x) (put room.old at)) }
{
    field(room, at, x.here, key, x.value)
}

// Of lent bytes the first n are written, counters and data entries under a requires: so these are no `Value`, which is all of what is written.
// The first n bytes of d, as an array of numbers.
#[tactic(auto, using(crate::proofs::Putting::pairs))]
pub fn octets(room: &mut [u8], at: usize, key: &[u8], d: &[u8], n: u8) -> usize
    ensures { ◌≡◌ {A = Put} (put room.new result) (put_parts (pair_part true key.now (numbers_parts (take n d.now))) (put room.old at)) }
{
    let next = forms::put_run(room, at, key);
    forms::put_octets(room, next, d, n)
}

// The first n of a downlink's counters in d, as an array of numbers.
#[tactic(auto, using(crate::proofs::Putting::pairs))]
pub fn counters(room: &mut [u8], at: usize, here: bool, key: &[u8], d: &[u8], n: u8) -> usize
    requires { (n ≤ 16) × (64 ≤ length d.now) }
    ensures { ◌≡◌ {A = Put} (put room.new result) (put_parts (pair_part here key.now (numbers_parts (counters_lent n d.now))) (put room.old at)) }
{
    if !here {
        return at;
    }
    let next = forms::put_run(room, at, key);
    forms::put_counters(room, next, d, n)
}

// The first n of a downlink's data entries in d, as an array of arrays of numbers.
#[tactic(auto, using(crate::proofs::Putting::pairs))]
pub fn pieces(room: &mut [u8], at: usize, key: &[u8], d: &[u8], n: u8) -> usize
    requires { (n ≤ 16) × (80 + sum_of (lengths_lent n d.now) ≤ length d.now) }
    ensures { ◌≡◌ {A = Put} (put room.new result) (put_parts (pair_part true key.now (pieces_parts (pieces_lent n d.now))) (put room.old at)) }
{
    let next = forms::put_run(room, at, key);
    forms::put_pieces(room, next, d, n)
}

// The first n bytes of d, as a text.
#[tactic(auto, using(crate::proofs::Putting::pairs))]
pub fn text(room: &mut [u8], at: usize, key: &[u8], d: &[u8], n: u8) -> usize
    ensures { ◌≡◌ {A = Put} (put room.new result) (put_parts (pair_part true key.now (text_parts (take n d.now))) (put room.old at)) }
{
    let next = forms::put_run(room, at, key);
    forms::put_text(room, next, d, n)
}

pub fn four(room: &mut [u8], at: usize, key: &[u8], x: u32) -> usize
    ensures { ◌≡◌ {A = Put} (put room.new result) (put_parts (pair_part true key.now (numbers_parts (big_bytes 4 x))) (put room.old at)) }
{
    let mut t = [0u8; 4];
    octets::put_big(&mut t, 0, 4, u64::from(x));
    octets(room, at, key, &t, 4)
}

// Sixteen bytes in a place for them.
fn spread(t: &mut [u8], x: Sixteen)
    requires { length t.old ≡ 16 }
    ensures { t.new ≡ sixteen_bytes x }
{
    octets::put_big(t, 0, 8, x.high);
    octets::put_big(t, 8, 8, x.low);
}

pub fn sixteen(room: &mut [u8], at: usize, key: &[u8], x: Sixteen) -> usize
    ensures { ◌≡◌ {A = Put} (put room.new result) (put_parts (pair_part true key.now (numbers_parts (sixteen_bytes x))) (put room.old at)) }
{
    let mut t = [0u8; 16];
    spread(&mut t, x);
    octets(room, at, key, &t, 16)
}

// A profile of no bytes is absent.
#[tactic(auto, using(crate::proofs::Putting::numbers))]
pub fn profile(room: &mut [u8], at: usize, n: u8, x: Sixteen) -> usize
    ensures { ◌≡◌ {A = Put} (put room.new result) (put_parts (pair_part (not (eqb n 0)) (text "profile") (text_parts (take n (sixteen_bytes x)))) (put room.old at)) }
{
    if n == 0 {
        return at;
    }
    let mut t = [0u8; 16];
    spread(&mut t, x);
    text(room, at, b"\xA7profile", &t, n)
}
