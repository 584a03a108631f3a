// Bytes at hand: a buffer that is filled in pieces from a reader, and text that waits to be written. What a program does with the bytes stands in its
// turns; here what is left of a piece goes to the front of the next. A read or a write that fails is the caller's to tell of.
#![tactic(auto)]

ghost use mathlib.Core.{Path.◌≡◌, Bool.false, Bool.◌&&◌, Bool.not};
ghost use Rattle.std.specs.Prelude.{ℕ, ◌+◌, ◌-◌, ◌≤◌, ◌<◌, min, OnOk, OnErr, IfOk, IfErr, IsErrOf, IsTrue, MatchResult};
ghost use Rattle.std.specs.declared.io.Error.{Error};
ghost use Rattle.std.specs.Io.KnownBytes.{Appends, Consumes, IsAtEnd, Keeps, append_known, prepend_known};
ghost use lib.{Dec.eqb, ListN.length, ListN.take, ListN.drop};
ghost use Rattle.hand.specs.Code.Part.{part_of, Sound, Follows};

use lines::Took;
use std::io;
use std::io::{Read, Write};

// A turn prints at most so many bytes.
const MOST_TEXT: usize = 80;

// The bytes at hand stand from `from` up to `to`, and no more will come where they are the last; `filled` bytes of text are not written yet.
#[derive(Clone, Copy)]
pub struct Hand {
    pub from: usize,
    pub to: usize,
    pub filled: usize,
    pub last: bool,
    pub ended: bool,
}

// Which of the two failed, and why.
#[derive(Clone, Copy, Debug)]
pub enum Failed {
    Read(io::Error),
    Write(io::Error),
}

impl Hand {
    // Nothing at hand.
    pub fn empty() -> Hand
        ensures { result ≡ record { from = 0; to = 0; filled = 0; last = false; ended = false } }
    {
        Hand {
            from: 0,
            to: 0,
            filled: 0,
            last: false,
            ended: false,
        }
    }

    // Behind a turn: its bytes are passed over and its text waits to be written. Where it waits for bytes, the text is written and a piece is read; the text
    // is written too where a line may have no room. Where a read or a write fails, the bytes at hand are still there.
    #[tactic(auto, using(crate::proofs::Following::turning, crate::proofs::Streams::texts))]
    pub fn turned<R: Read, W: Write>(
        &mut self,
        reader: &mut R,
        writer: &mut W,
        held: &mut [u8],
        out: &[u8],
        took: Took,
    ) -> Result<(), Failed>
        ensures held { Sound held.old self.old.from self.old.to → took.used ≤ self.old.to - self.old.from
            → Follows (part_of held.old (self.old.from + took.used) self.old.to) held.new self.new.from self.new.to }
        ensures read { Sound held.old self.old.from self.old.to → took.used ≤ self.old.to - self.old.from
            → Keeps (prepend_known (part_of held.old (self.old.from + took.used) self.old.to) (R.remaining reader.old))
            (prepend_known (part_of held.new self.new.from self.new.to) (R.remaining reader.new)) }
        ensures ended { self.new.ended ≡ took.ended }
        ensures last { OnOk result ((IsTrue self.old.last → IsAtEnd (R.remaining reader.old)) → self.old.to - self.old.from < length held.old
            → IsTrue self.new.last → IsAtEnd (R.remaining reader.new)) }
        ensures written { OnOk result (Keeps
            (append_known (W.contents writer.old) (part_of out.now 0 (min (self.old.filled + took.length) (length out.now))))
            (append_known (W.contents writer.new) (part_of out.now 0 self.new.filled))) }
        ensures err { OnErr result (self.new.filled ≡ 0) }
        ensures read_failed { (x : Error) → IsErrOf result (Failed.Read x) → Keeps
            (append_known (W.contents writer.old) (part_of out.now 0 (min (self.old.filled + took.length) (length out.now))))
            (append_known (W.contents writer.new) (part_of out.now 0 0)) }
        ensures write_failed { (x : Error) → IsErrOf result (Failed.Write x) → held.new ≡ held.old }
    {
        self.from = moved(self.from, took.used, held.len());
        self.filled = moved(self.filled, took.length, out.len());
        self.ended = took.ended;
        if waits(took) {
            self.flushed(writer, out)?;
            return self.refill(reader, held);
        }
        if out.len().saturating_sub(self.filled) < MOST_TEXT {
            return self.flushed(writer, out);
        }
        Ok(())
    }

    // The text is written, and waits no more; where it can't be, some of it may be written.
    pub fn flushed<W: Write>(&mut self, writer: &mut W, out: &[u8]) -> Result<(), Failed>
        ensures from { self.new.from ≡ self.old.from }
        ensures to { self.new.to ≡ self.old.to }
        ensures filled { self.new.filled ≡ 0 }
        ensures last { self.new.last ≡ self.old.last }
        ensures ended { self.new.ended ≡ self.old.ended }
        ensures written { OnOk result (Appends (W.contents writer.old) (W.contents writer.new) (part_of out.now 0 self.old.filled)) }
        ensures err { IfErr result (λ e. (x : Error) × (e ≡ Failed.Write x)) }
    {
        let text = part(out, 0, self.filled);
        self.filled = 0;
        writer.write_all(text).map_err(Failed::Write)
    }

    // The bytes at hand go to the front, and a piece is read behind them. There is room for one: a turn waits on fewer bytes than the buffer has.
    #[tactic(auto, using(crate::proofs::Streams::refilling))]
    fn refill<R: Read>(&mut self, reader: &mut R, held: &mut [u8]) -> Result<(), Failed>
        ensures filled { self.new.filled ≡ self.old.filled }
        ensures ended { self.new.ended ≡ self.old.ended }
        ensures held { Sound held.old self.old.from self.old.to
            → Follows (part_of held.old self.old.from self.old.to) held.new self.new.from self.new.to }
        ensures read { Sound held.old self.old.from self.old.to
            → Keeps (prepend_known (part_of held.old self.old.from self.old.to) (R.remaining reader.old))
            (prepend_known (part_of held.new self.new.from self.new.to) (R.remaining reader.new)) }
        ensures last { OnOk result (min self.old.to (length held.old) - self.old.from < length held.old
            → IsTrue self.new.last → IsAtEnd (R.remaining reader.new)) }
        ensures err { IfErr result (λ e. (x : Error) × (e ≡ Failed.Read x)) }
    {
        let n = to_front(held, self.from, self.to);
        self.from = 0;
        self.to = n;
        let got = read_behind(reader, held, n).map_err(Failed::Read)?;
        self.to = moved(n, got, held.len());
        self.last = got == 0;
        Ok(())
    }
}

// Whether a turn waits for bytes.
pub fn waits(took: Took) -> bool
    ensures { result ≡ eqb took.used 0 && not took.ended }
{
    took.used == 0 && !took.ended
}

fn read_behind<R: Read>(reader: &mut R, held: &mut [u8], n: usize) -> io::Result<usize>
    ensures front { take (min n (length held.old)) held.new ≡ take (min n (length held.old)) held.old }
    ensures behind { MatchResult result
        (λ k. (k ≤ length held.old - min n (length held.old))
        × Consumes (R.remaining reader.old) (R.remaining reader.new) (take k (drop (min n (length held.old)) held.new)))
        (λ _. Keeps (R.remaining reader.old) (R.remaining reader.new)) }
    ensures end { IfOk result (λ k. k ≡ 0 → n < length held.old → IsAtEnd (R.remaining reader.new)) }
{
    let from = n.min(held.len());
    reader.read(&mut held[from..])
}

// The bytes at hand, moved to the front; the answer is how many they are.
fn to_front(held: &mut [u8], from: usize, to: usize) -> usize
    ensures value { result ≡ min to (length held.old) - from }
    ensures front { take result held.new ≡ take result (drop from held.old) }
{
    let end = to.min(held.len());
    if from == 0 {
        return end;
    }
    let start = from.min(end);
    held.copy_within(start..end, 0);
    end - start
}

// The part of s from a to e; empty where s has no such part.
#[tactic(auto, using(crate::proofs::Parts::parts))]
pub fn part(s: &[u8], a: usize, e: usize) -> &[u8]
    ensures { result.now ≡ part_of s.now a e }
{
    s.get(a..e).unwrap_or(&[])
}

// A place n further, at most the last.
fn moved(at: usize, n: usize, last: usize) -> usize
    ensures { result ≡ min (at + n) last }
{
    at.saturating_add(n).min(last)
}
