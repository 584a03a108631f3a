// One vector: a line of the input, its payload, and what the walk and the number reader are to say of it.
use crate::payload::VALUE;
use crate::{payload, text};
use number::Number;
use refusal::Refusal;
use std::fmt::Display;
use std::io;

// How many lines, cuts and numbers were tried, and how many answers were wrong.
#[derive(Clone, Copy, Default)]
pub struct Tally {
    pub lines: u64,
    pub cuts: u64,
    pub numbers: u64,
    pub wrong: u64,
}

// What a line says of its value: how many elements it has, and what it is.
#[derive(Clone, Copy)]
struct Said {
    elements: usize,
    value: Value,
}

// An integer, its sign apart; a float's bits; the place of a key that is no text; or another value.
#[derive(Clone, Copy)]
enum Value {
    Integer { minus: bool, x: u64 },
    Float(u64),
    KeyNotText(usize),
    Other,
}

impl Value {
    // Where in the payload a key stands that is no text.
    fn broken(self) -> Option<usize> {
        match self {
            Value::KeyNotText(x) => Some(VALUE.saturating_add(x)),
            _ => None,
        }
    }
}

// The words behind the bytes.
fn read(s: &[u8]) -> Option<Said> {
    let elements = text::number_of(text::word(s, 1), 10)?;
    let value = value_of(text::word(s, 2), text::word(s, 3))?;
    if !text::word(s, 4).is_empty() {
        return None;
    }
    Some(Said {
        elements: usize::try_from(elements).ok()?,
        value,
    })
}

// A value of a kind: i, f, k or -.
fn value_of(kind: &[u8], v: &[u8]) -> Option<Value> {
    match kind {
        b"i" => match v.strip_prefix(b"-") {
            Some(x) => integer(true, x),
            None => integer(false, v),
        },
        b"f" => Some(Value::Float(text::number_of(v, 16)?)),
        b"k" => {
            let place = usize::try_from(text::number_of(v, 10)?);
            Some(Value::KeyNotText(place.ok()?))
        }
        b"-" => {
            if v.is_empty() {
                Some(Value::Other)
            } else {
                None
            }
        }
        _ => None,
    }
}

fn integer(minus: bool, digits: &[u8]) -> Option<Value> {
    let x = text::number_of(digits, 10)?;
    Some(Value::Integer { minus, x })
}

impl Tally {
    // Every test of one line.
    pub fn line(&mut self, rt: &impl Print, s: &[u8], room: &mut [u8]) -> io::Result<()> {
        self.lines = self.lines.saturating_add(1);
        let Some(said) = read(s) else {
            return self.judge(
                rt,
                false,
                "words, HEX, elements, kind and value, at least",
                3,
            );
        };
        let Some(longer) = payload::with_value(room, text::word(s, 0)) else {
            return self.judge(rt, false, "bytes in hex, at least", 1);
        };
        let Some((_, payload)) = longer.split_last() else {
            return Ok(());
        };
        self.form(rt, payload, longer, said)?;
        self.cuts(rt, payload, said)?;
        self.number(rt, payload, said.value)
    }

    // A wrong answer is counted, and printed with the line's number and what was expected.
    fn judge<D: Display + Drop>(
        &mut self,
        rt: &impl Print,
        right: bool,
        expected: &str,
        x: D,
    ) -> io::Result<()> {
        if right {
            return Ok(());
        }
        self.wrong = self.wrong.saturating_add(1);
        println!(rt; "wrong: line {}: expected {expected} {x}", self.lines)
    }

    // The whole payload, and with a byte added.
    fn form(
        &mut self,
        rt: &impl Print,
        payload: &[u8],
        longer: &[u8],
        said: Said,
    ) -> io::Result<()> {
        if let Some(at) = said.value.broken() {
            let refused = payload::refuses(payload, Refusal::KeyNotText, at);
            self.judge(rt, refused, "refusal 8 at", at)?;
            let refused = payload::refuses(longer, Refusal::KeyNotText, at);
            return self.judge(rt, refused, "refusal 8, with a byte added, at", at);
        }
        let elements = said.elements.saturating_add(6);
        self.judge(rt, payload::holds(payload, elements), "elements", elements)?;
        let end = payload.len();
        let refused = payload::refuses(longer, Refusal::LeftOver, end);
        self.judge(rt, refused, "refusal 10 at", end)
    }

    // The payload cut behind each byte, and to nothing.
    fn cuts(&mut self, rt: &impl Print, payload: &[u8], said: Said) -> io::Result<()> {
        let broken = said.value.broken();
        for k in 0..payload.len() {
            self.cuts = self.cuts.saturating_add(1);
            self.cut(rt, &payload[..k], broken.is_some_and(|at| at < k))?;
        }
        Ok(())
    }

    // A payload that was cut: 3 for nothing, 8 where a key's lead byte is there that is no text's, else 4.
    fn cut(&mut self, rt: &impl Print, cut: &[u8], broken: bool) -> io::Result<()> {
        let k = cut.len();
        let refusal = payload::refusal(cut);
        if k == 0 {
            let right = refusal == Some(Refusal::Size);
            return self.judge(rt, right, "refusal 3 of the cut to", 0);
        }
        if broken {
            let right = refusal == Some(Refusal::KeyNotText);
            return self.judge(rt, right, "refusal 8 of the cut to", k);
        }
        let right = refusal == Some(Refusal::Cut);
        self.judge(rt, right, "refusal 4 of the cut to", k)
    }

    // The value as a number.
    fn number(&mut self, rt: &impl Print, payload: &[u8], value: Value) -> io::Result<()> {
        let read = number::number_at(payload, VALUE);
        match value {
            Value::Integer { minus, x } => {
                self.numbers = self.numbers.saturating_add(1);
                let right = is_integer(read, minus, x);
                self.judge(rt, right, "the integer, its sign left out,", x)
            }
            Value::Float(bits) => {
                self.numbers = self.numbers.saturating_add(1);
                let right = is_float(read, bits);
                self.judge(rt, right, "the float whose 64 bits are the number", bits)
            }
            _ => self.judge(rt, read.is_none(), "no number at", VALUE),
        }
    }
}

// Whether a number is x, or minus x.
fn is_integer(read: Option<Number>, minus: bool, x: u64) -> bool {
    match read {
        Some(Number::Unsigned(u)) => !minus && u == x,
        Some(Number::Signed(z)) => minus && z < 0 && z.unsigned_abs() == x,
        _ => false,
    }
}

// Whether a number is a real of these bits. A NaN is no real, and has no bits of its own.
fn is_float(read: Option<Number>, bits: u64) -> bool {
    match read {
        Some(Number::Real(x)) => !x.is_nan() && x.to_bits() == bits,
        _ => false,
    }
}
