// Places are compared and reckoned with (`bodies` grades faults by them, `faults` answers one more than the first), so an enum would be no plainer.
//
// Where each field stands in its command's list, from 0.
// Every command's.
pub const COMMAND: u8 = 0;

pub const OP_ID: u8 = 1;

// con's; conRsp has the first too.
pub const VERSION: u8 = 2;

pub const BS_EUI: u8 = 3;

pub const CON_BIDI: u8 = 4;

pub const CON_GEO_LOCATION: u8 = 5;

pub const SN_BS_UUID: u8 = 6;

pub const SN_BS_OP_ID: u8 = 7;

pub const SN_SC_OP_ID: u8 = 8;

pub const CON_VENDOR: u8 = 9;

// conRsp's.
pub const SC_EUI: u8 = 3;

pub const SN_RESUME: u8 = 4;

pub const SN_SC_UUID: u8 = 5;

pub const CON_RSP_VENDOR: u8 = 6;

// statusRsp's.
pub const CODE: u8 = 2;

pub const MESSAGE: u8 = 3;

pub const TIME: u8 = 4;

pub const DUTY_CYCLE: u8 = 5;

pub const STATUS_GEO_LOCATION: u8 = 6;

pub const UPTIME: u8 = 7;

pub const TEMP: u8 = 8;

pub const CPU_LOAD: u8 = 9;

pub const MEM_LOAD: u8 = 10;

pub const CONFIG: u8 = 11;

// det's and ulData's; attPrp, detPrp and dlDataQue have the first too.
pub const EP_EUI: u8 = 2;

pub const RX_TIME: u8 = 3;

pub const RX_DURATION: u8 = 4;

pub const PACKET_CNT: u8 = 5;

pub const SNR: u8 = 6;

pub const RSSI: u8 = 7;

pub const EQ_SNR: u8 = 8;

pub const PROFILE: u8 = 9;

// det's, and detRsp's.
pub const DET_SIGN: u8 = 10;

pub const DET_SUBPACKETS: u8 = 11;

pub const DET_RSP_SIGN: u8 = 2;

// attPrp's.
pub const ATT_PRP_BIDI: u8 = 3;

pub const NWK_SN_KEY: u8 = 4;

pub const SH_ADDR: u8 = 5;

pub const LAST_PACKET_CNT: u8 = 6;

pub const DUAL_CHAN: u8 = 7;

pub const REPETITION: u8 = 8;

pub const WIDE_CARR_OFF: u8 = 9;

pub const LONG_BLK_DIST: u8 = 10;

// ulData's.
pub const USER_DATA: u8 = 10;

pub const FORMAT: u8 = 11;

pub const DL_OPEN: u8 = 12;

pub const RESPONSE_EXP: u8 = 13;

pub const DL_ACK: u8 = 14;

pub const MODE: u8 = 15;

pub const UL_DATA_SUBPACKETS: u8 = 16;

// dlDataQue's.
pub const QUE_ID: u8 = 3;

pub const CNT_DEPEND: u8 = 4;

pub const DOWNLINK_PACKET_CNT: u8 = 5;

pub const DOWNLINK_USER_DATA: u8 = 6;

pub const DOWNLINK_FORMAT: u8 = 7;

pub const PRIO: u8 = 8;

pub const DOWNLINK_RESPONSE_EXP: u8 = 9;

pub const RESPONSE_PRIO: u8 = 10;

pub const DL_WIND_REQ: u8 = 11;

pub const EXP_ONLY: u8 = 12;
