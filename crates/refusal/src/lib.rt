// Why something is refused: one case for each number of document 01's "Numbers of refusal", in its order.
// Definitions: specs/Refusal.antt.
#![tactic(auto)]

ghost use Rattle.std.specs.Prelude.{◌≡◌};
ghost use Rattle.refusal.specs.Refusal.{number as number_of};

#[derive(Clone, Copy)]
pub enum Refusal {
    LengthOutOfBounds = 1,
    WrongMagic = 2,
    WrongVersion = 3,
    PastTheEnd = 4,
    WrongMetric = 5,
    WrongDimensions = 6,
    WrongM = 7,
    WrongEf = 8,
    WrongCount = 9,
    WrongFlag = 10,
    VectorPastTheEnd = 11,
    NotFinite = 12,
    VectorAllZero = 13,
    CaptionTooLong = 14,
    NotUtf8 = 15,
    BytesLeftOver = 16,
    WrongFileCrc = 17,
    ActiveTwice = 18,
    TooFewRows = 19,
    LogTooLong = 20,
    WrongLengthCrc = 21,
    WrongLength = 22,
    WrongPayloadCrc = 23,
    WrongSequence = 24,
    WrongBatchCount = 25,
    UnknownOperation = 26,
    GapAfterSnapshot = 27,
    StorageLimits = 28,
    InactiveDelete = 29,
    NoSuchNode = 30,
    RowDoesNotFit = 31,
    OutputTooShort = 32,
    RequestMalformed = 33,
    TooLarge = 34,
    FileUnreadable = 35,
    StaleCache = 40,
    WrongNodeCount = 41,
    WrongEntry = 42,
    MissingEntry = 43,
    WrongRngState = 44,
    CountOverBytes = 45,
    WrongLevels = 46,
    WrongDegree = 47,
    WrongNeighbour = 48,
    EdgeToMissingLevel = 49,
    EntryBelowHighest = 50,
    TooFewStarts = 51,
}

impl Refusal {
    // Document 01's number.
    pub fn number(self) -> u32
        ensures { result ≡ number_of self }
    {
        self as u32
    }
}
