// Slots are indices into `notes::Noted::places`: an enum would be turned into its number at each of their uses, so it would be no plainer.
//
// The slot of each key: its place among the keys of documents 01 and 02.
pub const COMMAND: usize = 0;

pub const OP_ID: usize = 1;

pub const VERSION: usize = 2;

pub const BS_EUI: usize = 3;

pub const BIDI: usize = 4;

pub const GEO_LOCATION: usize = 5;

pub const SN_BS_UUID: usize = 6;

pub const SN_BS_OP_ID: usize = 7;

pub const SN_SC_OP_ID: usize = 8;

pub const VENDOR: usize = 9;

pub const MODEL: usize = 10;

pub const NAME: usize = 11;

pub const SW_VERSION: usize = 12;

pub const INFO: usize = 13;

pub const SC_EUI: usize = 14;

pub const SN_RESUME: usize = 15;

pub const SN_SC_UUID: usize = 16;

pub const CODE: usize = 17;

pub const MESSAGE: usize = 18;

pub const TIME: usize = 19;

pub const DUTY_CYCLE: usize = 20;

pub const UPTIME: usize = 21;

pub const TEMP: usize = 22;

pub const CPU_LOAD: usize = 23;

pub const MEM_LOAD: usize = 24;

pub const CONFIG: usize = 25;

pub const EP_EUI: usize = 26;

pub const RX_TIME: usize = 27;

pub const RX_DURATION: usize = 28;

pub const PACKET_CNT: usize = 29;

pub const SNR: usize = 30;

pub const RSSI: usize = 31;

pub const EQ_SNR: usize = 32;

pub const PROFILE: usize = 33;

pub const SIGN: usize = 34;

pub const SUBPACKETS: usize = 35;

pub const NWK_SN_KEY: usize = 36;

pub const SH_ADDR: usize = 37;

pub const LAST_PACKET_CNT: usize = 38;

pub const DUAL_CHAN: usize = 39;

pub const REPETITION: usize = 40;

pub const WIDE_CARR_OFF: usize = 41;

pub const LONG_BLK_DIST: usize = 42;

pub const USER_DATA: usize = 43;

pub const FORMAT: usize = 44;

pub const DL_OPEN: usize = 45;

pub const RESPONSE_EXP: usize = 46;

pub const DL_ACK: usize = 47;

pub const MODE: usize = 48;

pub const QUE_ID: usize = 49;

pub const CNT_DEPEND: usize = 50;

pub const PRIO: usize = 51;

pub const RESPONSE_PRIO: usize = 52;

pub const DL_WIND_REQ: usize = 53;

pub const EXP_ONLY: usize = 54;

// A key of no command.
pub const NONE: usize = 55;
