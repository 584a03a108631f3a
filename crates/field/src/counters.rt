// Counters: an array of numbers from 0 to 2^32 - 1.
ghost use Rattle.std.specs.Prelude.{◌≡◌, ◌≤◌, length};
ghost use Rattle.octets.specs.{Bytes.put_at, Pieces.counter_bytes};
ghost use Rattle.field.specs.{Kind.Kind, Judge.on_some, Judge.counts_sized, Cell.value_in, Cell.word_of, Cell.views_of, Code.At.cell_at};
ghost use Rattle.field.specs.{Code.Read.tell, Code.Read.read_at, Code.Lent.list_in, Code.Lent.counters_at, Code.Lent.AreCounters};

use crate::array::array_at;
use crate::counters_cell;
use crate::head::number_end;
use crate::whole::whole_at;

const MOST_COUNTER: u64 = 0xFFFF_FFFF;

// A downlink has no more, each in so many of its lent bytes.
const MANY: usize = 16;

const WIDTH: usize = 4;

#[tactic(auto, using(crate::proofs::Naturals::counters))]
pub fn counters_at(s: &[u8], at: usize, many: usize) -> Option<u64>
    ensures { result ≡ read_at word_of (Kind.counters many) s.now at }
{
    let a = array_at(s, at)?;
    if many < a.size {
        return None;
    }
    counted(s, a.from, a.size)
}

// The n parts from a place on.
#[tactic(auto, using(crate::proofs::Naturals::counts))]
fn counted(s: &[u8], from: usize, n: usize) -> Option<u64>
    ensures { result ≡ tell word_of (on_some (counters_at s.now n from) (counts_sized n)) }
{
    let mut q = from;
    for i in 0..n {
        whole_at(s, q, 0, MOST_COUNTER)?;
        q = number_end(s, q);
    }
    Some(n as u64)
}

// The counters of a downlink's field, little endian, from the room's start on; nothing where the field has no value.
#[tactic(auto, using(crate::proofs::Downlinks::counters_told_in))]
pub fn counters_into(s: &[u8], p: usize, out: &mut [u8])
    requires { 64 ≤ length out.old }
    ensures { out.new ≡ put_at out.old 0 (counter_bytes (views_of (value_in (cell_at (Kind.counters 16) s.now p))).counts) }
{
    if let Ok(n) = counters_cell(s, p, MANY) {
        if let Some(a) = array_at(s, p) {
            put_counters(s, a.from, n as usize, out);
        }
    }
}

// The n parts from a place on.
#[tactic(auto, using(crate::proofs::PutCounters::counters_left))]
fn put_counters(s: &[u8], from: usize, n: usize, out: &mut [u8])
    requires { AreCounters s.now n from × (64 ≤ length out.old) }
    ensures { out.new ≡ put_at out.old 0 (counter_bytes (list_in (counters_at s.now n from))) }
{
    let mut q = from;
    for i in 0..n {
        let Some(c) = whole_at(s, q, 0, MOST_COUNTER) else {
            return;
        };
        octets::put_little(out, WIDTH * i, WIDTH, c);
        q = number_end(s, q);
    }
}
