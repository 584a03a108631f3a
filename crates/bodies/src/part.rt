// One field of a list at its place, which is 0 where its key is missing and 1 where it stands more than once.
ghost use mathlib.Core.{Path.◌≡◌, Bool.true, Bool.false};
ghost use Rattle.std.specs.Prelude.{◌^◌, ◌≤◌, ◌<◌, max};
ghost use Rattle.field.specs.Kind.{Kind, unsigned64, unsigned32, unsigned16, unsigned8, signed32, bytes16, bytes4, user_bytes, profile_text, status_text};
ghost use Rattle.field.specs.{Cell.Cell, Code.At.cell_at, Code.Into.read_into};
ghost use Rattle.message.specs.Reading.{graded};
ghost use Rattle.message.specs.Record.{word_in, id_in, mark_in, figure_in, position_in, version_in, maybe_of};
ghost use Rattle.record.specs.Record.{four_in, sixteen_in};
ghost use Rattle.bodies.specs.Code.Held.{flaw_of, fault_of, rank_of, judged_as, held_as, parts_in, profile_in, exactly, four_if, sixteen_if};

use crate::{Held, Parts, Profile, RANK};
use field::{Flaw, Position, Released};
use message::{Maybe, Version};
use record::Sixteen;

// Mandatory or not.
pub const MUST: bool = true;

pub const MAY: bool = false;

// The least and the greatest of an operation's numbers, their signs apart.
pub const OP_ID_LOW: u64 = 0x8000_0000_0000_0000;

pub const OP_ID_HIGH: u64 = 0x7FFF_FFFF_FFFF_FFFF;

// The last place that a list may have.
const LAST: u8 = 63;

// Zeros, where there is no position.
const NOWHERE: Position = Position {
    latitude: 0.0,
    longitude: 0.0,
    altitude: 0.0,
};

// How many bytes a status message and a profile have at most.
const MOST_MESSAGE: usize = 64;

const MOST_PROFILE: usize = 16;

// How many counters and data entries a downlink has at most, how many bytes each of these, and how many all together.
const MOST_COUNTERS: usize = 16;

const MOST_ENTRIES: usize = 16;

const MOST_ENTRY: usize = 245;

const MOST_TOGETHER: usize = 800;

// A missing field that is not mandatory is no fault.
fn fault_of(must: bool, flaw: Option<Flaw>) -> Option<Flaw>
    ensures { result ≡ fault_of must flaw }
{
    match flaw? {
        Flaw::Invalid => Some(Flaw::Invalid),
        Flaw::Missing => if must { Some(Flaw::Missing) } else { None },
        Flaw::Twice => Some(Flaw::Twice),
    }
}

// Invalid, missing, twice: of a list's faults the one with the greatest rank is told.
fn rank_of(fault: Flaw) -> u16
    ensures is { result ≡ rank_of fault }
    ensures few { result ≤ 3 }
{
    match fault {
        Flaw::Invalid => 1,
        Flaw::Missing => 2,
        Flaw::Twice => 3,
    }
}

// A fault with its field's place: a graver one is more, and of equal ones the first.
#[tactic(auto, using(crate::proofs::Readers::grades))]
pub fn grade_of(fault: Flaw, i: u8) -> u16
    requires { i < 64 }
    ensures { result ≡ graded (rank_of fault) i }
{
    rank_of(fault) * RANK + u16::from(LAST - i)
}

// The gravest fault with one field more, at place i of its list.
#[tactic(auto, using(crate::proofs::Readers::passes))]
fn passed(worst: u16, i: u8, must: bool, flaw: Option<Flaw>) -> u16
    requires { i < 64 }
    ensures { (c : Cell) → flaw ≡ flaw_of c → result ≡ judged_as must i c worst }
{
    match fault_of(must, flaw) {
        Some(fault) => worst.max(grade_of(fault, i)),
        None => worst,
    }
}

// A number of 64 bits.
pub fn word(s: &[u8], p: u16, must: bool, i: u8, worst: u16) -> Held<Maybe<u64>>
    requires { i < 64 }
    ensures { result ≡ held_as (maybe_of word_in) must i (cell_at unsigned64 s.now p) worst }
{
    let told = field::whole_cell(s, p as usize, 0, u64::MAX);
    Held {
        worst: passed(worst, i, must, told.err()),
        value: Maybe {
            here: told.is_ok(),
            value: told.unwrap_or(0),
        },
    }
}

// A natural number of at most `most`, 0 where it is absent: what counters, short addresses and formats are, each at its width. One function over the width
// would know of the width only what `TryFrom` says, and need a trait with its laws for four lines: no plainer.
#[tactic(auto, using(crate::proofs::Readers::withins))]
fn natural(s: &[u8], p: u16, most: u64, must: bool, i: u8, worst: u16) -> Held<u64>
    requires { i < 64 }
    ensures held { result ≡ held_as word_in must i (cell_at (Kind.wholes 0 most) s.now p) worst }
    ensures within { result.value ≤ most }
{
    let told = field::whole_cell(s, p as usize, 0, most);
    Held {
        worst: passed(worst, i, must, told.err()),
        value: told.unwrap_or(0),
    }
}

// A counter.
pub fn count(s: &[u8], p: u16, i: u8, worst: u16) -> Held<u32>
    requires { i < 64 }
    ensures { result ≡ held_as word_in true i (cell_at unsigned32 s.now p) worst }
{
    let n = natural(s, p, u64::from(u32::MAX), MUST, i, worst);
    Held {
        worst: n.worst,
        value: n.value as u32,
    }
}

// A short address.
pub fn short(s: &[u8], p: u16, i: u8, worst: u16) -> Held<u16>
    requires { i < 64 }
    ensures { result ≡ held_as word_in true i (cell_at unsigned16 s.now p) worst }
{
    let n = natural(s, p, u64::from(u16::MAX), MUST, i, worst);
    Held {
        worst: n.worst,
        value: n.value as u16,
    }
}

// A format, 0 where it is absent.
pub fn format(s: &[u8], p: u16, i: u8, worst: u16) -> Held<u8>
    requires { i < 64 }
    ensures { result ≡ held_as word_in false i (cell_at unsigned8 s.now p) worst }
{
    let n = natural(s, p, u64::from(u8::MAX), MAY, i, worst);
    Held {
        worst: n.worst,
        value: n.value as u8,
    }
}

// An operation's number, from minus lo to hi.
pub fn id(s: &[u8], p: u16, lo: u64, hi: u64, must: bool, i: u8, worst: u16) -> Held<Maybe<i64>>
    requires { (i < 64) × (lo ≤ 2 ^ 63) × (hi < 2 ^ 63) }
    ensures { result ≡ held_as (maybe_of id_in) must i (cell_at (Kind.wholes lo hi) s.now p) worst }
{
    let told = field::whole_cell(s, p as usize, lo, hi);
    Held {
        worst: passed(worst, i, must, told.err()),
        value: Maybe {
            here: told.is_ok(),
            value: octets::signed_of(told.unwrap_or(0)),
        },
    }
}

// A code: a signed number of 32 bits.
pub fn code(s: &[u8], p: u16, i: u8, worst: u16) -> Held<i32>
    requires { i < 64 }
    ensures { result ≡ held_as id_in true i (cell_at signed32 s.now p) worst }
{
    let told = field::whole_cell(s, p as usize, 0x8000_0000, 0x7FFF_FFFF);
    Held {
        worst: passed(worst, i, MUST, told.err()),
        value: octets::signed32_of((told.unwrap_or(0) % 0x1_0000_0000) as u32),
    }
}

pub fn mark(s: &[u8], p: u16, must: bool, i: u8, worst: u16) -> Held<Maybe<bool>>
    requires { i < 64 }
    ensures { result ≡ held_as (maybe_of mark_in) must i (cell_at Kind.flags s.now p) worst }
{
    let told = field::flag_cell(s, p as usize);
    Held {
        worst: passed(worst, i, must, told.err()),
        value: Maybe {
            here: told.is_ok(),
            value: told.unwrap_or(false),
        },
    }
}

pub fn real(s: &[u8], p: u16, must: bool, i: u8, worst: u16) -> Held<Maybe<f64>>
    requires { i < 64 }
    ensures { result ≡ held_as (maybe_of figure_in) must i (cell_at Kind.reals s.now p) worst }
{
    let told = field::real_cell(s, p as usize);
    Held {
        worst: passed(worst, i, must, told.err()),
        value: Maybe {
            here: told.is_ok(),
            value: told.unwrap_or(0.0),
        },
    }
}

// A real that single precision holds exactly.
pub fn single(s: &[u8], p: u16, i: u8, worst: u16) -> Held<Maybe<f64>>
    requires { i < 64 }
    ensures { result ≡ held_as (maybe_of figure_in) false i (cell_at Kind.singles s.now p) worst }
{
    let told = field::single_cell(s, p as usize);
    Held {
        worst: passed(worst, i, MAY, told.err()),
        value: Maybe {
            here: told.is_ok(),
            value: told.unwrap_or(0.0),
        },
    }
}

// How many counters there are, and how many data entries; both are looked at where they stand.
#[tactic(auto, using(crate::proofs::Readers::withins))]
pub fn counters(s: &[u8], p: u16, i: u8, worst: u16) -> Held<Parts>
    requires { i < 64 }
    ensures { result ≡ held_as parts_in false i (cell_at (Kind.counters 16) s.now p) worst }
{
    let told = field::counters_cell(s, p as usize, MOST_COUNTERS);
    let flaw = told.err();
    Held {
        worst: passed(worst, i, MAY, flaw),
        value: Parts {
            flaw,
            count: told.unwrap_or(0) as u8,
        },
    }
}

#[tactic(auto, using(crate::proofs::Readers::withins))]
pub fn entries(s: &[u8], p: u16, i: u8, worst: u16) -> Held<Parts>
    requires { i < 64 }
    ensures { result ≡ held_as parts_in true i (cell_at (Kind.pieces 16 245 800) s.now p) worst }
{
    let told = field::pieces_cell(s, p as usize, MOST_ENTRIES, MOST_ENTRY, MOST_TOGETHER);
    let flaw = told.err();
    Held {
        worst: passed(worst, i, MUST, flaw),
        value: Parts {
            flaw,
            count: told.unwrap_or(0) as u8,
        },
    }
}

pub fn position(s: &[u8], p: u16, i: u8, worst: u16) -> Held<Maybe<Position>>
    requires { i < 64 }
    ensures { result ≡ held_as (maybe_of position_in) false i (cell_at Kind.positions s.now p) worst }
{
    let told = field::position_cell(s, p as usize);
    Held {
        worst: passed(worst, i, MAY, told.err()),
        value: Maybe {
            here: told.is_ok(),
            value: told.unwrap_or(NOWHERE),
        },
    }
}

pub fn version(s: &[u8], p: u16, must: bool, i: u8, worst: u16) -> Held<Maybe<Version>>
    requires { i < 64 }
    ensures { result ≡ held_as (maybe_of version_in) must i (cell_at Kind.versions s.now p) worst }
{
    let told = field::version_cell(s, p as usize);
    let numbers = told.unwrap_or(Released {
        major: 0,
        minor: 0,
        patch: 0,
    });
    Held {
        worst: passed(worst, i, must, told.err()),
        value: Maybe {
            here: told.is_ok(),
            value: Version {
                major: numbers.major,
                minor: numbers.minor,
                patch: numbers.patch,
            },
        },
    }
}

// How many bytes a text of at most 64 has.
#[tactic(auto, using(crate::proofs::Readers::withins))]
pub fn letters(s: &[u8], p: u16, i: u8, worst: u16) -> Held<u8>
    requires { i < 64 }
    ensures { result ≡ held_as word_in true i (cell_at status_text s.now p) worst }
{
    let told = field::text_cell(s, p as usize, 0, MOST_MESSAGE);
    Held {
        worst: passed(worst, i, MUST, told.err()),
        value: told.unwrap_or(0) as u8,
    }
}

// How many bytes an array has, which are put into the room.
#[tactic(auto, using(crate::proofs::Readers::withins))]
pub fn octets(s: &[u8], p: u16, room: &mut [u8; 245], i: u8, worst: u16) -> Held<u8>
    requires { i < 64 }
    ensures held { result ≡ held_as word_in true i (cell_at user_bytes s.now p) worst }
    ensures room { room.new ≡ read_into s.now p room.old }
{
    let told = field::octets_read(s, p as usize, room);
    Held {
        worst: passed(worst, i, MUST, told.err()),
        value: told.unwrap_or(0) as u8,
    }
}

// A text, and a map, that are not kept.
#[tactic(auto, using(crate::proofs::Readers::judged_told))]
pub fn unkept(s: &[u8], p: u16, must: bool, i: u8, worst: u16) -> u16
    requires { i < 64 }
    ensures { result ≡ judged_as must i (cell_at Kind.words s.now p) worst }
{
    let told = field::word_cell(s, p as usize);
    passed(worst, i, must, told.err())
}

#[tactic(auto, using(crate::proofs::Readers::judged_told))]
pub fn table(s: &[u8], p: u16, i: u8, worst: u16) -> u16
    requires { i < 64 }
    ensures { result ≡ judged_as false i (cell_at Kind.maps s.now p) worst }
{
    let told = field::map_cell(s, p as usize);
    passed(worst, i, MAY, told.err())
}

// Why an array of exactly n bytes has no value, by what is told of one of at most n.
#[tactic(auto, unfolding(crate::specs::Code::Held::exactly))]
fn exact(told: Result<u64, Flaw>, n: u64) -> Option<Flaw>
    ensures { result ≡ exactly told n }
{
    match told {
        Ok(len) => if len == n { None } else { Some(Flaw::Invalid) },
        Err(flaw) => Some(flaw),
    }
}

// Sixteen bytes, and four; zeros where there are not as many.
pub fn sixteen(s: &[u8], p: u16, i: u8, worst: u16) -> Held<Sixteen>
    requires { i < 64 }
    ensures { result ≡ held_as sixteen_in true i (cell_at bytes16 s.now p) worst }
{
    let mut a = [0u8; 16];
    let told = field::octets_read(s, p as usize, &mut a);
    let flaw = exact(told, 16);
    Held {
        worst: passed(worst, i, MUST, flaw),
        value: halves(&a, flaw.is_none()),
    }
}

pub fn four(s: &[u8], p: u16, i: u8, worst: u16) -> Held<u32>
    requires { i < 64 }
    ensures { result ≡ held_as four_in true i (cell_at bytes4 s.now p) worst }
{
    let mut a = [0u8; 4];
    let told = field::octets_read(s, p as usize, &mut a);
    let flaw = exact(told, 4);
    Held {
        worst: passed(worst, i, MUST, flaw),
        value: quarter(&a, flaw.is_none()),
    }
}

// A profile's text.
#[tactic(auto, using(crate::proofs::Readers::withins))]
pub fn profile(s: &[u8], p: u16, i: u8, worst: u16) -> Held<Profile>
    requires { i < 64 }
    ensures { result ≡ held_as profile_in false i (cell_at profile_text s.now p) worst }
{
    let told = field::text_cell(s, p as usize, 1, MOST_PROFILE);
    let mut a = [0u8; 16];
    field::text_into(s, p as usize, &mut a);
    Held {
        worst: passed(worst, i, MAY, told.err()),
        value: Profile {
            len: told.unwrap_or(0) as u8,
            text: halves(&a, told.is_ok()),
        },
    }
}

// Bytes as numbers, where they are a field's; else zeros.
#[tactic(auto, using(crate::proofs::Bytes::numbers))]
fn halves(a: &[u8; 16], whole: bool) -> Sixteen
    ensures { result ≡ sixteen_if whole a.now }
{
    if whole {
        Sixteen {
            high: octets::big_at(a, 0, 8),
            low: octets::big_at(a, 8, 8),
        }
    } else {
        Sixteen { high: 0, low: 0 }
    }
}

#[tactic(auto, using(crate::proofs::Bytes::numbers))]
fn quarter(a: &[u8; 4], whole: bool) -> u32
    ensures { result ≡ four_if whole a.now }
{
    if whole {
        octets::big_at(a, 0, 4) as u32
    } else {
        0
    }
}
