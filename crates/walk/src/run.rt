// The parts of an array that are a byte below 0x80, or a byte behind CC: each is an element of its own. Most arrays
// hold bytes, so that all or nearly all of their parts are such.
ghost use Rattle.std.specs.Prelude.{◌≡◌, ◌-◌, ◌*◌, ◌≤◌, IfSome};
ghost use Rattle.walk.specs.Code.Run.{eight_more, Follows, Passes, Ran};

use crate::MOST_ELEMENTS;

// The place behind such parts, and how many they are.
#[derive(Clone, Copy)]
pub struct Passed {
    pub at: usize,
    pub parts: usize,
}

// Such parts from a place on, as many of n as may be counted.
pub fn octet_run(s: &[u8], at: usize, count: usize, left: usize, n: usize) -> Passed
    ensures { Ran s.now left n at count result.at result.parts }
{
    if may_run(s, at) {
        octets_from(s, at, countable(count, left, n))
    } else {
        Passed { at, parts: 0 }
    }
}

// A look at the first byte, for arrays of other parts: no container, text or float. Either answer is right.
fn may_run(s: &[u8], at: usize) -> bool {
    at < s.len() && matches!(s[at], 0x00..=0x7F | 0xCC..=0xFF)
}

// How many of n parts may be counted and have a level.
fn countable(count: usize, left: usize, n: usize) -> usize
    ensures most { result ≤ n }
    ensures few { result ≤ 1024 - count }
    ensures deep { result ≤ 1024 * left }
{
    if left == 0 {
        return 0;
    }
    n.min(MOST_ELEMENTS.saturating_sub(count))
}

// Such parts among n: by eights, then one by one.
#[tactic(auto, using(crate::proofs::Runs::passings))]
fn octets_from(s: &[u8], at: usize, n: usize) -> Passed
    ensures { Passes s.now n at result.at result.parts }
{
    let mut run = eights(s, at, n);
    for parts in run.parts..n {
        let Some(behind) = octet_end(s, run.at) else {
            break;
        };
        run = Passed {
            at: behind,
            parts: parts + 1,
        };
    }
    run
}

// The place behind such a part; none where it is another, or where two bytes, enough for either, are not there.
#[tactic(auto, using(crate::proofs::Runs::octet_ends))]
fn octet_end(s: &[u8], at: usize) -> Option<usize>
    ensures { IfSome result (λ behind. Follows s.now at behind) }
{
    if !octets::is_there(s.len(), at, 2) {
        return None;
    }
    match s[at] {
        0x00..=0x7F => Some(at + 1),
        0xCC => Some(at + 2),
        _ => None,
    }
}

// Many arrays begin with bytes below 0x80: these go by eights, until eight are not low. No count ends the loop, so a `for` would be no plainer.
fn eights(s: &[u8], at: usize, n: usize) -> Passed
    ensures { Passes s.now n at result.at result.parts }
{
    let mut q = at;
    let mut i: usize = 0;
    while eight_more(s, q, n - i) {
        q += 8;
        i += 8;
    }
    Passed { at: q, parts: i }
}

// Eight parts more of n are left, and are bytes below 0x80.
#[tactic(auto, using(crate::proofs::Runs::eights))]
fn eight_more(s: &[u8], at: usize, n: usize) -> bool
    ensures { result ≡ eight_more s.now at n }
{
    8 <= n && octets::eight_low(s, at)
}
