// Where the value of each key stands in a payload: one pass over the outer map's pairs, which is also the walk over them.
#![tactic(auto)]

mod pass;

ghost use mathlib.Core.{Path.◌≡◌, Bool.true};
ghost use Rattle.std.specs.Prelude.{◌^◌, ◌<◌, length};
ghost use Rattle.octets.specs.{Number.big_at, Number.if_there, Size.is_size};
ghost use Rattle.element.specs.Lead.{head_of};
ghost use Rattle.walk.specs.Code.Short.{Announces};
ghost use Rattle.message.specs.Code.Cells.{command_at};
ghost use Rattle.notes.specs.Code.Noted.{noted_of, opened_of, commanded, BeginsMap, IsTextAt};

use element::{Head, Next, Shape};
use names::numbers::COMMANDS;
use pass::{broken, pass_pairs};
use refusal::{Broken, Refusal};

// The walk's answer, and the place of each key's value by slot: 0 nowhere, 1 more than once. Slot 55 is for keys of no command.
#[derive(Clone, Copy)]
pub struct Noted {
    pub step: Result<Next, Broken>,
    pub places: [u16; 64],
}

// The outer element of a payload, and the places of its map's values.
#[tactic(auto, using(crate::proofs::Opening::ways))]
pub fn outer(s: &[u8]) -> Noted
    ensures { result ≡ noted_of s.now }
{
    if !octets::is_size(s.len()) {
        return broken(Refusal::Size);
    }
    opened(s)
}

// The same of a payload of lawful size.
#[tactic(auto, using(crate::proofs::Opening::ways))]
fn opened(s: &[u8]) -> Noted
    requires { is_size (length s.now) ≡ true }
    ensures { result ≡ opened_of s.now }
{
    let b = s[0];
    if b == 0xC1 {
        return broken(Refusal::NeverUsed);
    }
    if walk::lead::is_map(b) {
        return opened_map(s);
    }
    broken(Refusal::OuterNotMap)
}

// An outer map: how many pairs it states, and where they begin.
#[tactic(auto, using(crate::proofs::Opening::maps))]
fn opened_map(s: &[u8]) -> Noted
    requires { BeginsMap s.now }
    ensures { result ≡ opened_of s.now }
{
    let Head { wide, more, .. } = map_head(s[0]);
    if s.len() - 1 < wide {
        return broken(Refusal::Cut);
    }
    let from = 1 + wide;
    let n = more + (length_at(s, 1, wide) as usize);
    pass_pairs(s, from, n)
}

// The command's number by the place of its text; refused with 11 where there is no one text, and with 12 where the text names none.
#[tactic(auto, using(crate::proofs::Naming::places))]
pub fn command_at(s: &[u8], place: u16) -> Result<u8, Refusal>
    ensures { result ≡ commanded (command_at s.now place) }
{
    let p = usize::from(place);
    if p < 2 {
        return Err(Refusal::NoCommand);
    }
    if s.len() <= p {
        return Err(Refusal::NoCommand);
    }
    let b = s[p];
    if walk::lead::is_text(b) {
        return named_at(s, p);
    }
    Err(Refusal::NoCommand)
}

// The same of a text that stands there: its bytes, where they are all there.
#[tactic(auto, using(crate::proofs::Naming::namings))]
fn named_at(s: &[u8], p: usize) -> Result<u8, Refusal>
    requires { IsTextAt s.now p }
    ensures { result ≡ commanded (command_at s.now p) }
{
    let Head { wide, more, .. } = text_head(s[p]);
    if s.len() - p - 1 < wide {
        return Err(Refusal::NoCommand);
    }
    let from = p + 1 + wide;
    let n = more + (length_at(s, p + 1, wide) as usize);
    if s.len() - from < n {
        return Err(Refusal::NoCommand);
    }
    let to = from + n;
    let command = names::command_of(&s[from..to]);
    if command < COMMANDS {
        return Ok(command);
    }
    Err(Refusal::UnknownCommand)
}

// Heads of maps and of texts differ in shape, base and bound: one function that is lent all three would be no plainer.
// The head of a map's lead byte. Below 90, as in most messages, no bytes of length follow.
#[tactic(auto, using(crate::proofs::Opening::heads))]
fn map_head(b: u8) -> Head
    requires { (head_of b).shape ≡ Shape.Map }
    ensures { Announces b result }
{
    if b < 0x90 {
        return Head {
            shape: Shape::Map,
            wide: 0,
            more: usize::from(b - 0x80),
        };
    }
    walk::lead::head_of(b)
}

// The head of a text's lead byte. Below C0, as in most messages, no bytes of length follow.
#[tactic(auto, using(crate::proofs::Opening::heads))]
fn text_head(b: u8) -> Head
    requires { (head_of b).shape ≡ Shape.Text }
    ensures { Announces b result }
{
    if b < 0xC0 {
        return Head {
            shape: Shape::Text,
            wide: 0,
            more: usize::from(b - 0xA0),
        };
    }
    walk::lead::head_of(b)
}

// What the bytes of length state. Where there are none, no call of the number reader.
#[tactic(auto, using(crate::proofs::Opening::lengths))]
fn length_at(s: &[u8], from: usize, wide: usize) -> u64
    ensures is { result ≡ if_there s.now from wide (big_at s.now from wide) }
    ensures width { result < 256 ^ wide }
{
    if wide == 0 {
        return 0;
    }
    octets::big_at(s, from, wide)
}
