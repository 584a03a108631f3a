// dlDataQue's fields. Its counters, lengths and data entries are lent beside it.
ghost use Rattle.std.specs.Prelude.{◌≡◌, ◌+◌, ◌≤◌, length};
ghost use Rattle.octets.specs.Pieces.{lengths_lent};
ghost use Rattle.faults.specs.Code.Tests.{counts_fit, lengths_fit, pieces_fit, dl_data_que_fault};

use crate::{NONE, part};
use message::listed;

// So many counters and data entries have places.
const MOST_ENTRIES: u8 = 16;

// Where the lengths of the data entries stand, a byte each.
const LENGTHS: usize = 64;

// Where the entries begin.
const PIECES: usize = 80;

// How many bytes an entry has at most, and how many all have together.
const MOST_PIECE: u8 = 245;

const MOST_TOGETHER: usize = 800;

pub fn dl_data_que_fault(x: record::DlDataQue, d: &[u8]) -> u8
    ensures { result ≡ dl_data_que_fault x d.now }
{
    let expected = x.response_exp;
    let prior = x.response_prio;
    let window = x.dl_wind_req;
    let only = x.exp_only;
    if !counts_fit(x.cnt_depend, x.entries) {
        return listed::DOWNLINK_PACKET_CNT + 1;
    }
    if !pieces_fit(x.entries, d) {
        return listed::DOWNLINK_USER_DATA + 1;
    }
    if !part::is_single(x.prio) {
        return listed::PRIO + 1;
    }
    if !part::maybe_mark(expected) {
        return listed::DOWNLINK_RESPONSE_EXP + 1;
    }
    if !part::maybe_mark(prior) {
        return listed::RESPONSE_PRIO + 1;
    }
    if !part::maybe_mark(window) {
        return listed::DL_WIND_REQ + 1;
    }
    if !part::maybe_mark(only) {
        return listed::EXP_ONLY + 1;
    }
    NONE
}

// A counter for each entry, of which there is one at least; or no counters and one entry.
fn counts_fit(depends: bool, n: u8) -> bool
    ensures { result ≡ counts_fit depends n }
{
    if depends {
        (1 <= n) & (n <= MOST_ENTRIES)
    } else {
        n == 1
    }
}

// The first n entries have places, and none has too many bytes.
fn pieces_fit(n: u8, d: &[u8]) -> bool
    ensures { result ≡ pieces_fit n d.now }
{
    if MOST_ENTRIES < n {
        return false;
    }
    if d.len() < PIECES {
        return false;
    }
    lengths_fit(n as usize, d)
}

// No entry has too many bytes, nor have all of them together, and all are there.
fn lengths_fit(n: usize, d: &[u8]) -> bool
    requires { (n ≤ 16) × (80 ≤ length d.now) }
    ensures { result ≡ lengths_fit (lengths_lent n d.now) 0 (length d.now) }
{
    let mut sum: usize = 0;
    for i in 0..n {
        let size = d[LENGTHS + i];
        if MOST_PIECE < size {
            return false;
        }
        sum += usize::from(size);
    }
    (sum <= MOST_TOGETHER) & (PIECES + sum <= d.len())
}
