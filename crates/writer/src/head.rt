// The head of a payload: how many pairs it has, and the first two of them, command and opId.
ghost use mathlib.Core.{Path.◌≡◌, Bool.true, List.[], List.◌∷◌, List.◌++◌};
ghost use Rattle.std.specs.Prelude.{◌+◌, ◌≤◌, ◌<◌};
ghost use Rattle.forms.specs.Code.Put.{Put, put, put_parts, map_parts, whole_parts};
ghost use Rattle.record.specs.{Says.is_bare, declared.Body.Body};
ghost use Rattle.writer.specs.Code.Parts.{pairs_present, body_parts};

use names::numbers;

// How many pairs a message has: those that it always has, and of five optional ones those that are there. No array of them: the sum would be no plainer.
pub fn count(always: u8, a: bool, b: bool, c: bool, d: bool, e: bool) -> u8
    requires { always < 16 }
    ensures value { result ≡ pairs_present always a b c d e }
    ensures few { result ≤ always + 5 }
{
    always + u8::from(a) + u8::from(b) + u8::from(c) + u8::from(d) + u8::from(e)
}

// The names of command, of the command and of opId are lent as they are written.
#[tactic(auto, using(crate::proofs::Putting::title_put))]
pub fn title(room: &mut [u8], at: usize, n: u8, names: &[u8], id: i64) -> usize
    ensures { ◌≡◌ {A = Put} (put room.new result) (put_parts (map_parts n ++ (names.now ∷ whole_parts id)) (put room.old at)) }
{
    let a = forms::put_map(room, at, n);
    let b = forms::put_run(room, a, names);
    forms::put_id(room, b, id)
}

// A bare message has command and opId.
const BARE_PAIRS: u8 = 2;

// A command that has no other fields.
pub fn bare(room: &mut [u8], at: usize, id: i64, c: u8) -> usize
    requires { true ≡ is_bare c }
    ensures { ◌≡◌ {A = Put} (put room.new result) (put_parts (body_parts id (Body.Bare c) []) (put room.old at)) }
{
    match c {
        numbers::CON_CMP => title(room, at, BARE_PAIRS, b"\xA7command\xA6conCmp\xA4opId", id),
        numbers::PING => title(room, at, BARE_PAIRS, b"\xA7command\xA4ping\xA4opId", id),
        numbers::PING_RSP => title(room, at, BARE_PAIRS, b"\xA7command\xA7pingRsp\xA4opId", id),
        numbers::PING_CMP => title(room, at, BARE_PAIRS, b"\xA7command\xA7pingCmp\xA4opId", id),
        numbers::STATUS => title(room, at, BARE_PAIRS, b"\xA7command\xA6status\xA4opId", id),
        numbers::STATUS_CMP => title(
            room,
            at,
            BARE_PAIRS,
            b"\xA7command\xA9statusCmp\xA4opId",
            id,
        ),
        numbers::DET_CMP => title(room, at, BARE_PAIRS, b"\xA7command\xA6detCmp\xA4opId", id),
        numbers::ATT_PRP_RSP => title(
            room,
            at,
            BARE_PAIRS,
            b"\xA7command\xA9attPrpRsp\xA4opId",
            id,
        ),
        numbers::ATT_PRP_CMP => title(
            room,
            at,
            BARE_PAIRS,
            b"\xA7command\xA9attPrpCmp\xA4opId",
            id,
        ),
        numbers::DET_PRP_RSP => title(
            room,
            at,
            BARE_PAIRS,
            b"\xA7command\xA9detPrpRsp\xA4opId",
            id,
        ),
        numbers::DET_PRP_CMP => title(
            room,
            at,
            BARE_PAIRS,
            b"\xA7command\xA9detPrpCmp\xA4opId",
            id,
        ),
        numbers::UL_DATA_RSP => title(
            room,
            at,
            BARE_PAIRS,
            b"\xA7command\xA9ulDataRsp\xA4opId",
            id,
        ),
        numbers::UL_DATA_CMP => title(
            room,
            at,
            BARE_PAIRS,
            b"\xA7command\xA9ulDataCmp\xA4opId",
            id,
        ),
        numbers::DL_DATA_QUE_RSP => title(
            room,
            at,
            BARE_PAIRS,
            b"\xA7command\xACdlDataQueRsp\xA4opId",
            id,
        ),
        _ => title(
            room,
            at,
            BARE_PAIRS,
            b"\xA7command\xACdlDataQueCmp\xA4opId",
            id,
        ),
    }
}
