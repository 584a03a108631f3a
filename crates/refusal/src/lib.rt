// What document 01 and 02 refuse, each refusal by the name that the header has for it. The header's numbers are the documents'.
#![tactic(auto)]

ghost use Rattle.std.specs.Prelude.{◌≡◌, ◌≤◌};
ghost use Rattle.refusal.specs.Number.{number_of};

// Document 01's: frames, elements, messages, sessions, the meter table; document 02's: the downlink queue, traces.
#[derive(Clone, Copy, Debug, PartialEq, Eq)]
pub enum Refusal {
    FrameIncomplete = 1,
    FrameIdentifier = 2,
    Size = 3,
    Cut = 4,
    NeverUsed = 5,
    TooDeep = 6,
    TooManyElements = 7,
    KeyNotText = 8,
    OuterNotMap = 9,
    LeftOver = 10,
    NoCommand = 11,
    UnknownCommand = 12,
    KeyTwice = 13,
    FieldMissing = 14,
    Invalid = 15,
    Version = 16,
    State = 17,
    IdOutOfOrder = 18,
    SixteenOpen = 19,
    RoomTooShort = 20,
    NoRow = 21,
    AlreadyEnrolled = 22,
    NoFreeRow = 23,
    UnequalColumns = 24,
    StationNumber = 25,
    Stale = 26,
    QueueIdThere = 27,
    QueueFull = 28,
    NoQueueId = 29,
    NothingSuitable = 30,
    NotATrace = 31,
    NotShortest = 32,
    InputEnds = 33,
    TimeSum = 34,
    NotOneFrame = 35,
}

// A refusal of a payload, and the place of the byte at which it was found.
#[derive(Clone, Copy, Debug, PartialEq, Eq)]
pub struct Broken {
    pub refusal: Refusal,
    pub place: usize,
}

impl Refusal {
    // The number that documents and header give it.
    pub fn number(self) -> u8
        ensures is { result ≡ number_of self }
        ensures some { 1 ≤ result }
        ensures few { result ≤ 35 }
    {
        self as u8
    }
}
