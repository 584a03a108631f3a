// What a place of the store holds: a record of dlDataQue at its start, and its lent bytes behind that.
ghost use Rattle.std.specs.Prelude.{◌≡◌, ◌+◌, ◌≤◌, ◌<◌, length, take, drop, get_or};
ghost use Rattle.octets.specs.Pieces.{counters_from, sum_of};
ghost use Rattle.layout.specs.Taken.{number_at, flag_at};
ghost use Rattle.queue.specs.Entry.{place_of, is_suitable, goes_before, piece_for};
ghost use Rattle.queue.specs.Queue.{has_id};
ghost use Rattle.queue.specs.Store.{slot_at, is_used, entry_in};
ghost use Rattle.queue.specs.Calls.{shown_at};
ghost use Rattle.queue.specs.Code.Slots.{passing, names_counter, entry_at, or_behind};

use crate::{Chosen, rank};
use names::numbers::DL_DATA_QUE;
use octets::little_at;

pub const SLOT: usize = 984;

pub const SLOTS: usize = 32;

// The store: all places.
pub const SIZE: usize = 31488;

pub type Store = [u8; SIZE];

// A place of it.
pub type Slot = [u8; SLOT];

// What is looked for in an entry that is to be sent.
#[derive(Clone, Copy)]
pub struct Wanted {
    pub eui: u64,
    pub counter: u32,
    pub expected: bool,
}

#[tactic(auto, using(crate::proofs::Walks::slots_at))]
pub fn slot(q: &Store, i: usize) -> &Slot
    requires { i < 32 }
    ensures { result.now ≡ slot_at q.now i }
{
    &q.as_chunks::<SLOT>().0[i]
}

// Where the fields of a record lie.
pub const COMMAND: usize = 8;

const EP_EUI: usize = 16;

const QUE_ID: usize = 24;

const PRIO: usize = 32;

const ENTRIES: usize = 40;

const CNT_DEPEND: usize = 42;

const HAS_EXP_ONLY: usize = 49;

const EXP_ONLY: usize = 50;

// Where the lent bytes begin, and in them the lengths and the data.
pub const LENT: usize = 104;

const LENGTHS: usize = 64;

pub const PIECES: usize = 80;

fn byte(s: &[u8], at: usize) -> u8
    ensures { result ≡ number_at s.now 1 at }
{
    little_at(s, at, 1) as u8
}

fn is_set(s: &[u8], at: usize) -> bool
    ensures { result ≡ flag_at s.now at }
{
    byte(s, at) != 0
}

// How many data entries it has.
fn entries(s: &Slot) -> usize
    ensures value { result ≡ number_at s.now 1 40 }
    ensures few { result ≤ 255 }
{
    usize::from(byte(s, ENTRIES))
}

pub fn is_used(s: &Slot) -> bool
    ensures { result ≡ is_used s.now }
{
    byte(s, COMMAND) == DL_DATA_QUE
}

pub fn id(s: &Slot) -> u64
    ensures { result ≡ number_at s.now 8 24 }
{
    little_at(s, QUE_ID, 8)
}

// The prio's bits.
pub fn prio(s: &Slot) -> u64
    ensures { result ≡ number_at s.now 8 32 }
{
    little_at(s, PRIO, 8)
}

// Of two entries, both used.
#[tactic(auto, using(crate::proofs::Walks::slots_at))]
pub fn goes_before(a: &Slot, b: &Slot) -> bool
    ensures { result ≡ goes_before (entry_at a.now) (entry_at b.now) }
{
    rank::goes_before(prio(a), id(a), prio(b), id(b))
}

#[tactic(auto, using(crate::proofs::Slots::slots))]
pub fn has_id(s: &Slot, wanted: u64) -> bool
    ensures { result ≡ has_id wanted (entry_in s.now) }
{
    is_used(s) & (id(s) == wanted)
}

// i if it passes, else what came of those behind it.
fn or_behind(passes: bool, i: usize, rest: usize) -> usize
    ensures { result ≡ or_behind passes i rest }
{
    if passes { i } else { rest }
}

// The first place of a counter among n that are lent; n where it is none of them: the definition `place_of`, which `piece_for` goes on from, is that number.
#[tactic(auto, using(crate::proofs::Lents::counters))]
fn place_of(d: &[u8], n: usize, k: u32) -> usize
    requires { (n ≤ 255) × (length d.now ≡ 880) }
    ensures value { result ≡ place_of k (counters_from d.now n 0) }
    ensures few { result ≤ n }
{
    let mut found = n;
    for i in (0..n).rev() {
        found = or_behind(little_at(d, 4 * i, 4) == u64::from(k), i, found);
    }
    found
}

// How many bytes the first n data entries that are lent have.
pub fn length_of(d: &[u8], n: usize) -> usize
    requires { (n ≤ 255) × (64 + n ≤ length d.now) }
    ensures value { result ≡ sum_of (take n (drop 64 d.now)) }
    ensures most { result ≤ 65025 }
{
    let mut sum: usize = 0;
    for i in (0..n).rev() {
        sum += usize::from(d[LENGTHS + i]);
    }
    sum
}

// The length of the j-th of n data entries that are lent; 0 past them.
#[tactic(auto, using(crate::proofs::Slots::lengths_at))]
fn length_at(d: &[u8], n: usize, j: usize) -> u8
    requires { 64 + n ≤ length d.now }
    ensures { result ≡ get_or (take n (drop 64 d.now)) j 0 }
{
    if j < n { d[LENGTHS + j] } else { 0 }
}

// Whether an entry names a counter, if it depends on counters.
fn names_counter(s: &Slot, k: u32) -> bool
    ensures { result ≡ names_counter k (entry_at s.now) }
{
    if !is_set(s, CNT_DEPEND) {
        return true;
    }
    let n = entries(s);
    place_of(&s[LENT..], n, k) < n
}

pub fn suits(s: &Slot, wanted: Wanted) -> bool
    ensures { result ≡ passing (is_suitable wanted.eui wanted.counter wanted.expected) (entry_in s.now) }
{
    if !is_used(s) {
        return false;
    }
    if little_at(s, EP_EUI, 8) != wanted.eui {
        return false;
    }
    let only = is_set(s, HAS_EXP_ONLY) & is_set(s, EXP_ONLY);
    names_counter(s, wanted.counter) & (!only | wanted.expected)
}

// The place of the data for a counter, or of the only data.
fn piece(s: &Slot, k: u32) -> usize
    ensures value { result ≡ piece_for k (entry_at s.now) }
    ensures few { result ≤ 255 }
{
    if !is_set(s, CNT_DEPEND) {
        return 0;
    }
    place_of(&s[LENT..], entries(s), k)
}

// Where they stand, of the i-th place.
pub fn shown(s: &Slot, i: usize, k: u32) -> Chosen
    requires { i < 32 }
    ensures { result ≡ shown_at i (piece_for k (entry_at s.now)) (entry_at s.now).lengths }
{
    let j = piece(s, k);
    let n = entries(s);
    let from = PIECES + length_of(&s[LENT..], j);
    Chosen {
        place: i as u8,
        from: from as u16,
        size: length_at(&s[LENT..], n, j),
    }
}
