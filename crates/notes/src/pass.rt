// The pass over the pairs of the outer map.
ghost use mathlib.Core.{Path.◌≡◌, Bool.true};
ghost use Rattle.std.specs.Prelude.{◌≤◌, length};
ghost use Rattle.element.specs.{Code.Items.items_of, Code.At.body_from};
ghost use Rattle.names.specs.Code.Slots.{slot_of};
ghost use Rattle.message.specs.Code.Notes.{key_at, note_of, notes_of, unnoted};
ghost use Rattle.notes.specs.Code.Noted.{broken_at, IsKey};

use crate::Noted;
use element::Next;
use refusal::{Broken, Refusal};
use walk::steps::{key, value};

// n pairs from a place on, behind the outer map's head.
pub fn pass_pairs(s: &[u8], from: usize, n: usize) -> Noted
    requires { length s.now ≤ 4096 }
    ensures walk { result.step ≡ items_of s.now 7 true n from 1 }
    ensures places { result.places ≡ notes_of s.now n from 1 unnoted }
{
    let mut places = [0u16; 64];
    let step = pass(s, from, n, &mut places);
    Noted { step, places }
}

// The same, with the places noted in the room of the caller: those that stood before a break are noted.
fn pass(s: &[u8], from: usize, n: usize, places: &mut [u16; 64]) -> Result<Next, Broken>
    requires { length s.now ≤ 4096 }
    ensures walk { result ≡ items_of s.now 7 true n from 1 }
    ensures places { places.new ≡ notes_of s.now n from 1 places.old }
{
    let mut next = Next { at: from, count: 1 };
    for _ in 0..n {
        let behind = key(s, next.at, next.count, 7)?;
        let value = value(s, behind.at, behind.count, 7)?;
        let slot = slot_at(s, next.at, behind.at);
        places[slot] = note(places[slot], behind.at as u16);
        next = value;
    }
    Ok(next)
}

// A walk that breaks at its first byte.
pub fn broken(refusal: Refusal) -> Noted
    ensures { result ≡ broken_at refusal }
{
    Noted {
        step: Err(Broken { refusal, place: 0 }),
        places: [0u16; 64],
    }
}

// One more place of a key's value.
fn note(old: u16, q: u16) -> u16
    ensures { result ≡ note_of old q }
{
    if old == 0 { q } else { 1 }
}

// The slot of the key that stands from p to q.
#[tactic(auto, using(crate::proofs::Turns::slots))]
fn slot_at(s: &[u8], p: usize, q: usize) -> usize
    requires { IsKey s.now p q }
    ensures is { result ≡ slot_of (key_at s.now p q) }
    ensures small { result ≤ 55 }
{
    let from = body_of(s, p);
    names::slot_of(&s[from..q])
}

// Where the body of the element at p begins. Below C0 no bytes of length follow: so most keys are told by one test.
#[tactic(auto, using(crate::proofs::Turns::bodies))]
fn body_of(s: &[u8], p: usize) -> usize
    requires { body_from s.now p ≤ length s.now }
    ensures { result ≡ body_from s.now p }
{
    let b = s[p];
    if b < 0xC0 {
        return p + 1;
    }
    let h = walk::lead::head_of(b);
    p + 1 + h.wide
}
