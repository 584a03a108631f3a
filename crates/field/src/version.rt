// Versions: three decimal numbers 0 to 65,535 joined by dots, no leading zero, read in one pass that ends at the first byte that breaks this.
ghost use Rattle.std.specs.Prelude.{◌≡◌, ◌+◌, ◌≤◌, length, take, drop, Some};
ghost use Rattle.field.specs.{Kind.Kind, Cell.release_of, Code.Read.tell, Code.Read.read_at};
ghost use Rattle.field.specs.Code.Feed.{unfed, fed_of, dotted_of, digit_of, fed_all, outcome_of};

use crate::text::text_at;
use crate::{Release, Released};

#[tactic(auto, using(crate::proofs::Feeding::versions))]
pub fn version_at(s: &[u8], at: usize) -> Option<Released>
    ensures { result ≡ read_at release_of Kind.versions s.now at }
{
    let t = text_at(s, at)?;
    released(scanned(s, t.from, t.size)?)
}

// The three numbers.
#[tactic(auto, using(crate::proofs::Feeding::endings))]
fn released(v: Release) -> Option<Released>
    ensures { result ≡ tell release_of (outcome_of (Some v)) }
{
    if v.dots == 2 && v.digit {
        Some(Released {
            major: v.first,
            minor: v.second,
            patch: v.number,
        })
    } else {
        None
    }
}

// The n bytes from a place on, one after the other. A `for` over the part was tried: its proof wants laws of the part that the ones of `fed_all` do not give.
#[tactic(auto, using(crate::proofs::Feeding::scans))]
fn scanned(s: &[u8], from: usize, n: usize) -> Option<Release>
    requires { from + n ≤ length s.now }
    ensures { result ≡ fed_all unfed (take n (drop from s.now)) }
{
    let mut v = Release {
        dots: 0,
        digit: false,
        first: 0,
        second: 0,
        number: 0,
    };
    for i in 0..n {
        v = fed(v, s[from + i])?;
    }
    Some(v)
}

// A byte more.
#[tactic(auto, using(crate::proofs::Feeding::feeds))]
fn fed(v: Release, c: u8) -> Option<Release>
    ensures { result ≡ fed_of v c }
{
    if c == 0x2E {
        return dotted(v);
    }
    if c < 0x30 {
        return None;
    }
    if 0x39 < c {
        return None;
    }
    grown(v, (c - 0x30) as u32)
}

// A dot, behind the first number and the second.
#[tactic(auto, using(crate::proofs::Feeding::dots))]
fn dotted(v: Release) -> Option<Release>
    ensures { result ≡ dotted_of v }
{
    if v.digit {
        if v.dots == 0 {
            return Some(Release {
                dots: 1,
                digit: false,
                first: v.number,
                second: 0,
                number: 0,
            });
        }
        if v.dots == 1 {
            return Some(Release {
                dots: 2,
                digit: false,
                first: v.first,
                second: v.number,
                number: 0,
            });
        }
        return None;
    }
    None
}

// A digit: none stands behind a zero that leads.
#[tactic(auto, using(crate::proofs::Feeding::digits))]
fn grown(v: Release, d: u32) -> Option<Release>
    requires { d ≤ 9 }
    ensures { result ≡ digit_of v d }
{
    if v.digit & (v.number == 0) {
        return None;
    }
    let n = (v.number as u32) * 10 + d;
    if 65535 < n {
        return None;
    }
    Some(Release {
        dots: v.dots,
        digit: true,
        first: v.first,
        second: v.second,
        number: n as u16,
    })
}
