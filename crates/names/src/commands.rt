// The commands, a function for each length, the names in the order of the definitions. x is the number of a name's first
// two, four or eight bytes, the most that it has, and y that of the others. Each function is the table of its length: one
// function for all would be the same tables in another place. Each answers the command's number.
ghost use Rattle.std.specs.Prelude.{◌≡◌};
ghost use Rattle.names.specs.{Names.commands, Code.Numbers.place_by};

use crate::numbers::COMMANDS;

pub fn three(x: u64, y: u64) -> u8
    ensures { result ≡ place_by commands 3 2 x y }
{
    match x {
        0x636F /* con */ => if y == 0x6E { 0 } else { COMMANDS },
        0x6465 /* det */ => if y == 0x74 { 3 } else { COMMANDS },
        _ => COMMANDS,
    }
}

pub fn four(x: u64) -> u8
    ensures { result ≡ place_by commands 4 4 x 0 }
{
    match x {
        0x70696E67 /* ping */ => 9,
        _ => COMMANDS,
    }
}

pub fn six(x: u64, y: u64) -> u8
    ensures { result ≡ place_by commands 6 4 x y }
{
    match x {
        0x636F6E52 /* conRsp */ => if y == 0x7370 { 1 } else { COMMANDS },
        0x64657452 /* detRsp */ => if y == 0x7370 { 4 } else { COMMANDS },
        0x61747450 /* attPrp */ => if y == 0x7270 { 5 } else { COMMANDS },
        0x64657450 /* detPrp */ => if y == 0x7270 { 6 } else { COMMANDS },
        0x756C4461 /* ulData */ => if y == 0x7461 { 7 } else { COMMANDS },
        0x636F6E43 /* conCmp */ => if y == 0x6D70 { 8 } else { COMMANDS },
        0x73746174 /* status */ => if y == 0x7573 { 12 } else { COMMANDS },
        0x64657443 /* detCmp */ => if y == 0x6D70 { 14 } else { COMMANDS },
        _ => COMMANDS,
    }
}

pub fn seven(x: u64, y: u64) -> u8
    ensures { result ≡ place_by commands 7 4 x y }
{
    match y {
        0x527370 /* pingRsp */ => if x == 0x70696E67 { 10 } else { COMMANDS },
        0x436D70 /* pingCmp */ => if x == 0x70696E67 { 11 } else { COMMANDS },
        _ => COMMANDS,
    }
}

pub fn nine(x: u64, y: u64) -> u8
    ensures { result ≡ place_by commands 9 8 x y }
{
    match x {
        0x7374617475735273 /* statusRsp */ => if y == 0x70 { 2 } else { COMMANDS },
        0x737461747573436D /* statusCmp */ => if y == 0x70 { 13 } else { COMMANDS },
        0x6174745072705273 /* attPrpRsp */ => if y == 0x70 { 15 } else { COMMANDS },
        0x617474507270436D /* attPrpCmp */ => if y == 0x70 { 16 } else { COMMANDS },
        0x6465745072705273 /* detPrpRsp */ => if y == 0x70 { 17 } else { COMMANDS },
        0x646574507270436D /* detPrpCmp */ => if y == 0x70 { 18 } else { COMMANDS },
        0x756C446174615273 /* ulDataRsp */ => if y == 0x70 { 19 } else { COMMANDS },
        0x756C44617461436D /* ulDataCmp */ => if y == 0x70 { 20 } else { COMMANDS },
        0x646C446174615175 /* dlDataQue */ => if y == 0x65 { 21 } else { COMMANDS },
        _ => COMMANDS,
    }
}

pub fn twelve(x: u64, y: u64) -> u8
    ensures { result ≡ place_by commands 12 8 x y }
{
    match y {
        0x65527370 /* dlDataQueRsp */ => if x == 0x646C446174615175 {
            22
        } else {
            COMMANDS
        },
        0x65436D70 /* dlDataQueCmp */ => if x == 0x646C446174615175 {
            23
        } else {
            COMMANDS
        },
        _ => COMMANDS,
    }
}
