// Arrays: where their parts stand; and parts that are numbers from 0 to 255.
ghost use Rattle.std.specs.Prelude.{◌≡◌};
ghost use Rattle.field.specs.{Code.Extent.Lists, Code.Item.octet_at, Code.Item.LowRun};

use crate::{Extent, Octet, head};
use number::Number;

// The parts of the array at a place.
#[tactic(auto, using(crate::proofs::Arrays::lists))]
pub fn array_at(s: &[u8], at: usize) -> Option<Extent>
    ensures { Lists s.now at result }
{
    if s.len() <= at {
        return None;
    }
    let b = s[at];
    if b < 0x90 {
        return long_array(s, at);
    }
    if b < 0xA0 {
        return Some(Extent {
            from: at + 1,
            size: (b - 0x90) as usize,
        });
    }
    if b == 0xDC {
        if octets::is_there(s.len(), at + 1, 2) {
            return Some(Extent {
                from: at + 3,
                size: octets::big_at(s, at + 1, 2) as usize,
            });
        }
    }
    long_array(s, at)
}

// The same in any form.
#[tactic(auto, using(crate::proofs::Arrays::lists))]
fn long_array(s: &[u8], at: usize) -> Option<Extent>
    ensures { Lists s.now at result }
{
    let o = head::opened_at(s, at);
    if head::is_array(o.shape) {
        Some(Extent {
            from: o.from,
            size: o.size,
        })
    } else {
        None
    }
}

// How many of n parts from a place on, by eights, are numbers of one byte. Arrays often begin with many. The first eight that are not end the loop: no count of
// turns, so a `for` would be no plainer.
#[tactic(auto, using(crate::proofs::Runs::runs))]
pub fn low_run(s: &[u8], from: usize, n: usize) -> usize
    ensures { LowRun s.now from n result }
{
    let mut r: usize = 0;
    while 8 <= n - r {
        if octets::eight_low(s, from + r) {
            r += 8;
        } else {
            return r;
        }
    }
    r
}

// The number at a place. Most are written in one byte, or in one behind CC. In line, or each part in a longer form pays a call.
#[inline(always)]
#[tactic(auto, using(crate::proofs::Octets::octets))]
pub fn octet_at(s: &[u8], at: usize) -> Option<Octet>
    ensures { result ≡ octet_at s.now at }
{
    if s.len() <= at {
        return None;
    }
    let b = s[at];
    if b < 0x80 {
        return Some(Octet {
            value: b,
            next: at + 1,
        });
    }
    if b == 0xCC {
        if at + 1 < s.len() {
            return Some(Octet {
                value: s[at + 1],
                next: at + 2,
            });
        }
        return None;
    }
    any_octet(s, at)
}

// The same, in any width and sign form.
#[tactic(auto, using(crate::proofs::Octets::octets))]
fn any_octet(s: &[u8], at: usize) -> Option<Octet>
    ensures { result ≡ octet_at s.now at }
{
    match number::number_at(s, at)? {
        Number::Unsigned(n) => {
            if n < 256 {
                Some(Octet {
                    value: n as u8,
                    next: head::number_end(s, at),
                })
            } else {
                None
            }
        }
        Number::Signed(_) => None,
        Number::Real(_) => None,
    }
}
