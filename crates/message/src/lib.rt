// The parts of which the records of messages are made.
#![tactic(auto)]

pub mod listed;

// A field that may be absent: its value is zero then. No Option: a host's record may have an absent field with another value, which document 01
// refuses with 15 (`fault_in` of record's specs/Fits: the field's part is not clean).
#[derive(Clone, Copy)]
pub struct Maybe<T> {
    pub here: bool,
    pub value: T,
}

// A version's three numbers.
#[derive(Clone, Copy)]
pub struct Version {
    pub major: u16,
    pub minor: u16,
    pub patch: u16,
}

// The signal figures of a received packet travel together.
#[derive(Clone, Copy)]
pub struct Signal {
    pub snr: f64,
    pub rssi: f64,
    pub eq_snr: Maybe<f64>,
}
