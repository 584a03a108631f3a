// Texts: where their bytes stand, and how many there are.
ghost use Rattle.std.specs.Prelude.{◌≡◌, ◌+◌, ◌≤◌, length, take, drop};
ghost use Rattle.octets.specs.Bytes.{put_at};
ghost use Rattle.field.specs.{Kind.Kind, Cell.word_of, Code.Told.unkept, Code.Read.read_at, Code.Read.sized_of, Code.Extent.part_from, Code.Extent.Bears};

use crate::Extent;
use crate::head::{is_text, opened_at};

// A text that is not kept.
#[tactic(auto, using(crate::proofs::Texts::texts))]
pub fn word_at(s: &[u8], at: usize) -> Option<()>
    ensures { result ≡ read_at unkept Kind.words s.now at }
{
    text_at(s, at)?;
    Some(())
}

// A text of lo to hi bytes: how many it has.
#[tactic(auto, using(crate::proofs::Texts::texts))]
pub fn string_at(s: &[u8], at: usize, lo: usize, hi: usize) -> Option<u64>
    ensures { result ≡ read_at word_of (Kind.texts lo hi) s.now at }
{
    let t = text_at(s, at)?;
    sized(t.size, lo, hi)
}

#[tactic(auto, using(crate::proofs::Texts::sizes))]
fn sized(n: usize, lo: usize, hi: usize) -> Option<u64>
    ensures { result ≡ sized_of lo hi n }
{
    if n < lo || hi < n {
        return None;
    }
    Some(n as u64)
}

// n bytes from a place on into a room, if it has space for them.
#[tactic(auto, using(crate::proofs::Strings::strings))]
pub fn copy(s: &[u8], from: usize, n: usize, out: &mut [u8])
    requires { from + n ≤ length s.now }
    ensures { out.new ≡ put_at out.old 0 (take n (drop from s.now)) }
{
    if n <= out.len() {
        // Byte by byte, as in `forms::put_run`: `copy_from_slice` asks a C program for `memmove`.
        for i in 0..n {
            out[i] = s[from + i];
        }
    }
}

// The bytes of the text at a place.
#[tactic(auto, using(crate::proofs::Texts::parts))]
pub fn text_at(s: &[u8], at: usize) -> Option<Extent>
    ensures { Bears s.now at result }
{
    if s.len() <= at {
        return None;
    }
    let b = s[at];
    if b < 0xA0 {
        return None;
    }
    if b < 0xC0 {
        return part(s.len(), at + 1, (b - 0xA0) as usize);
    }
    long_text(s, at)
}

// The same with a length of its own.
#[tactic(auto, using(crate::proofs::Texts::parts))]
fn long_text(s: &[u8], at: usize) -> Option<Extent>
    ensures { Bears s.now at result }
{
    let o = opened_at(s, at);
    if is_text(o.shape) {
        part(s.len(), o.from, o.size)
    } else {
        None
    }
}

// n bytes from a place on, where they are within len.
#[tactic(auto, using(crate::proofs::Texts::parts))]
fn part(len: usize, from: usize, n: usize) -> Option<Extent>
    requires { from ≤ len }
    ensures { result ≡ part_from len from n }
{
    if n <= len - from {
        Some(Extent { from, size: n })
    } else {
        None
    }
}
