// They are numbers and no enum: a record that C hands in may name any byte as its command (`record::Body::Bare`), which the definition `fault_in` refuses with 15;
// an enum has no place for it.
//
// The number of each command: its place in document 01's list; those of document 02's Q-2 stand behind them, so that no number moved.
pub const CON: u8 = 0;

pub const CON_RSP: u8 = 1;

pub const STATUS_RSP: u8 = 2;

pub const DET: u8 = 3;

pub const DET_RSP: u8 = 4;

pub const ATT_PRP: u8 = 5;

pub const DET_PRP: u8 = 6;

pub const UL_DATA: u8 = 7;

pub const CON_CMP: u8 = 8;

pub const PING: u8 = 9;

pub const PING_RSP: u8 = 10;

pub const PING_CMP: u8 = 11;

pub const STATUS: u8 = 12;

pub const STATUS_CMP: u8 = 13;

pub const DET_CMP: u8 = 14;

pub const ATT_PRP_RSP: u8 = 15;

pub const ATT_PRP_CMP: u8 = 16;

pub const DET_PRP_RSP: u8 = 17;

pub const DET_PRP_CMP: u8 = 18;

pub const UL_DATA_RSP: u8 = 19;

pub const UL_DATA_CMP: u8 = 20;

pub const DL_DATA_QUE: u8 = 21;

pub const DL_DATA_QUE_RSP: u8 = 22;

pub const DL_DATA_QUE_CMP: u8 = 23;

// How many there are; the number of a name of no command.
pub const COMMANDS: u8 = 24;
