// The keys, a function for each length, the names in the order of the definitions. x is the number of a name's first
// two, four or eight bytes, the most that it has, and y that of the others. Each function is the table of its length: one
// function for all would be the same tables in another place. Each answers the key's slot.
ghost use Rattle.std.specs.Prelude.{◌≡◌};
ghost use Rattle.names.specs.{Code.Slots.keys, Code.Numbers.place_by};

use crate::slots::NONE;

pub fn three(x: u64, y: u64) -> usize
    ensures { result ≡ place_by keys 3 2 x y }
{
    match x {
        0x736E /* snr */ => if y == 0x72 { 30 } else { NONE },
        _ => NONE,
    }
}

pub fn four(x: u64) -> usize
    ensures { result ≡ place_by keys 4 4 x 0 }
{
    match x {
        0x6F704964 /* opId */ => 1,
        0x62696469 /* bidi */ => 4,
        0x6E616D65 /* name */ => 11,
        0x696E666F /* info */ => 13,
        0x636F6465 /* code */ => 17,
        0x74696D65 /* time */ => 19,
        0x74656D70 /* temp */ => 22,
        0x72737369 /* rssi */ => 31,
        0x7369676E /* sign */ => 34,
        0x6D6F6465 /* mode */ => 48,
        0x7072696F /* prio */ => 51,
        _ => NONE,
    }
}

pub fn five(x: u64, y: u64) -> usize
    ensures { result ≡ place_by keys 5 4 x y }
{
    match x {
        0x62734575 /* bsEui */ => if y == 0x69 { 3 } else { NONE },
        0x6D6F6465 /* model */ => if y == 0x6C { 10 } else { NONE },
        0x73634575 /* scEui */ => if y == 0x69 { 14 } else { NONE },
        0x65704575 /* epEui */ => if y == 0x69 { 26 } else { NONE },
        0x6571536E /* eqSnr */ => if y == 0x72 { 32 } else { NONE },
        0x646C4163 /* dlAck */ => if y == 0x6B { 47 } else { NONE },
        0x71756549 /* queId */ => if y == 0x64 { 49 } else { NONE },
        _ => NONE,
    }
}

pub fn six(x: u64, y: u64) -> usize
    ensures { result ≡ place_by keys 6 4 x y }
{
    match x {
        0x76656E64 /* vendor */ => if y == 0x6F72 { 9 } else { NONE },
        0x75707469 /* uptime */ => if y == 0x6D65 { 21 } else { NONE },
        0x636F6E66 /* config */ => if y == 0x6967 { 25 } else { NONE },
        0x72785469 /* rxTime */ => if y == 0x6D65 { 27 } else { NONE },
        0x73684164 /* shAddr */ => if y == 0x6472 { 37 } else { NONE },
        0x666F726D /* format */ => if y == 0x6174 { 44 } else { NONE },
        0x646C4F70 /* dlOpen */ => if y == 0x656E { 45 } else { NONE },
        _ => NONE,
    }
}

pub fn seven(x: u64, y: u64) -> usize
    ensures { result ≡ place_by keys 7 4 x y }
{
    match x {
        0x636F6D6D /* command */ => if y == 0x616E64 { 0 } else { NONE },
        0x76657273 /* version */ => if y == 0x696F6E { 2 } else { NONE },
        0x6D657373 /* message */ => if y == 0x616765 { 18 } else { NONE },
        0x6370754C /* cpuLoad */ => if y == 0x6F6164 { 23 } else { NONE },
        0x6D656D4C /* memLoad */ => if y == 0x6F6164 { 24 } else { NONE },
        0x70726F66 /* profile */ => if y == 0x696C65 { 33 } else { NONE },
        0x6578704F /* expOnly */ => if y == 0x6E6C79 { 54 } else { NONE },
        _ => NONE,
    }
}

pub fn eight(x: u64) -> usize
    ensures { result ≡ place_by keys 8 8 x 0 }
{
    match x {
        0x736E427355756964 /* snBsUuid */ => 6,
        0x736E42734F704964 /* snBsOpId */ => 7,
        0x736E53634F704964 /* snScOpId */ => 8,
        0x736E526573756D65 /* snResume */ => 15,
        0x736E536355756964 /* snScUuid */ => 16,
        0x6E776B536E4B6579 /* nwkSnKey */ => 36,
        0x6475616C4368616E /* dualChan */ => 39,
        0x7573657244617461 /* userData */ => 43,
        _ => NONE,
    }
}

pub fn nine(x: u64, y: u64) -> usize
    ensures { result ≡ place_by keys 9 8 x y }
{
    match x {
        0x737756657273696F /* swVersion */ => if y == 0x6E { 12 } else { NONE },
        0x647574794379636C /* dutyCycle */ => if y == 0x65 { 20 } else { NONE },
        0x7061636B6574436E /* packetCnt */ => if y == 0x74 { 29 } else { NONE },
        0x636E74446570656E /* cntDepend */ => if y == 0x64 { 50 } else { NONE },
        0x646C57696E645265 /* dlWindReq */ => if y == 0x71 { 53 } else { NONE },
        _ => NONE,
    }
}

pub fn ten(x: u64, y: u64) -> usize
    ensures { result ≡ place_by keys 10 8 x y }
{
    match x {
        0x7278447572617469 /* rxDuration */ => if y == 0x6F6E { 28 } else { NONE },
        0x7375627061636B65 /* subpackets */ => if y == 0x7473 { 35 } else { NONE },
        0x7265706574697469 /* repetition */ => if y == 0x6F6E { 40 } else { NONE },
        _ => NONE,
    }
}

pub fn eleven(x: u64, y: u64) -> usize
    ensures { result ≡ place_by keys 11 8 x y }
{
    match x {
        0x67656F4C6F636174 /* geoLocation */ => if y == 0x696F6E { 5 } else { NONE },
        0x7769646543617272 /* wideCarrOff */ => if y == 0x4F6666 { 41 } else { NONE },
        0x6C6F6E67426C6B44 /* longBlkDist */ => if y == 0x697374 { 42 } else { NONE },
        0x726573706F6E7365 /* responseExp */ => if y == 0x457870 { 46 } else { NONE },
        _ => NONE,
    }
}

pub fn twelve(x: u64, y: u64) -> usize
    ensures { result ≡ place_by keys 12 8 x y }
{
    match x {
        0x726573706F6E7365 /* responsePrio */ => if y == 0x5072696F { 52 } else { NONE },
        _ => NONE,
    }
}

pub fn thirteen(x: u64, y: u64) -> usize
    ensures { result ≡ place_by keys 13 8 x y }
{
    match x {
        0x6C6173745061636B /* lastPacketCnt */ => if y == 0x6574436E74 { 38 } else { NONE },
        _ => NONE,
    }
}
