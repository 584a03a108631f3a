// The text of a line, part by part. Each call answers the place behind what it wrote.
ghost use mathlib.Core.{Path.◌≡◌, List.[], List.◌∷◌};
ghost use Rattle.forms.specs.Code.Put.{Put, put, put_parts};
ghost use Rattle.names.specs.Names.{bytes, commands, name_at};
ghost use Rattle.record.specs.{Record.command_in, Meant.refusal_told, Meant.message_told};
ghost use Rattle.lines.specs.Code.Parts.{signed_parts, counted_parts, named_parts, message_parts, line_parts, stop_parts};

use forms::{put_digits, put_run};
use record::Counted;
use refusal::Broken;

// A number below 2^64 has at most so many decimal digits.
const DIGITS: u8 = 20;

// Each command's number is below this.
const COMMANDS: u8 = 24;

// A name's length and place for its bytes.
const ROW: usize = 13;

// A minus sign where x is below 0, and its digits.
fn put_signed(room: &mut [u8], at: usize, x: i64) -> usize
    ensures { ◌≡◌ {A = Put} (put room.new result) (put_parts (signed_parts x) (put room.old at)) }
{
    if x < 0 {
        let next = put_run(room, at, b"-");
        return put_digits(room, next, DIGITS, ((-1 - x) as u64) + 1);
    }
    put_digits(room, at, DIGITS, x as u64)
}

// Words, a number and the end of the line.
pub fn put_counted(room: &mut [u8], at: usize, words: &[u8], n: u64) -> usize
    ensures { ◌≡◌ {A = Put} (put room.new result) (put_parts (counted_parts words.now n) (put room.old at)) }
{
    let number = put_run(room, at, words);
    let end = put_digits(room, number, DIGITS, n);
    put_run(room, end, b"\n")
}

// A command's name; for a number of no command nothing. Each name's row has its length in front.
fn put_name(room: &mut [u8], at: usize, command: u8) -> usize
    ensures { ◌≡◌ {A = Put} (put room.new result) (put_parts (name_at commands command ∷ []) (put room.old at)) }
{
    if COMMANDS <= command {
        return at;
    }
    let names =
        *b"\x03con         \x06conRsp      \x09statusRsp   \x03det         \x06detRsp      \x06attPrp      \x06detPrp      \x06ulData      \x06conCmp      \x04ping        \x07pingRsp     \x07pingCmp     \x06status      \x09statusCmp   \x06detCmp      \x09attPrpRsp   \x09attPrpCmp   \x09detPrpRsp   \x09detPrpCmp   \x09ulDataRsp   \x09ulDataCmp   \x09dlDataQue   \x0CdlDataQueRsp\x0CdlDataQueCmp";
    let row = (command as usize) * ROW;
    let n = names[row] as usize;
    let from = row + 1;
    put_run(room, at, &names[from..from + n])
}

fn put_named(room: &mut [u8], at: usize, command: u8) -> usize
    ensures { ◌≡◌ {A = Put} (put room.new result) (put_parts (named_parts command) (put room.old at)) }
{
    let name = put_run(room, at, b" ");
    let next = put_name(room, name, command);
    put_run(room, next, b" ")
}

fn put_message(room: &mut [u8], at: usize, command: u8, op_id: i64) -> usize
    ensures { ◌≡◌ {A = Put} (put room.new result) (put_parts (message_parts command op_id) (put room.old at)) }
{
    let id = put_named(room, at, command);
    let end = put_signed(room, id, op_id);
    put_run(room, end, b"\n")
}

pub fn put_line(room: &mut [u8], number: u64, told: Result<Counted, Broken>) -> usize
    ensures { ◌≡◌ {A = Put} (put room.new result)
        (put_parts (line_parts number (refusal_told told) (command_in (message_told told).body) (message_told told).op_id) (put room.old 0)) }
{
    let next = put_digits(room, 0, DIGITS, number);
    match told {
        Ok(x) => {
            let m = x.message;
            put_message(room, next, record::command_in(m.body), m.op_id)
        }
        Err(broken) => put_refused(room, next, broken.refusal.number()),
    }
}

#[tactic(auto, using(crate::proofs::Texts::counted_put))]
fn put_refused(room: &mut [u8], at: usize, refusal: u8) -> usize
    ensures { ◌≡◌ {A = Put} (put room.new result) (put_parts (counted_parts (bytes " refused ") refusal) (put room.old at)) }
{
    put_counted(room, at, b" refused ", u64::from(refusal))
}

pub fn put_stop(room: &mut [u8], number: u64, refusal: u8) -> usize
    ensures { ◌≡◌ {A = Put} (put room.new result) (put_parts (stop_parts number refusal) (put room.old 0)) }
{
    let next = put_digits(room, 0, DIGITS, number);
    let end = put_refused(room, next, refusal);
    put_counted(room, end, b"frames ", number)
}
