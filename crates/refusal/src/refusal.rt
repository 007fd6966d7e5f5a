// What a call is refused for.
ghost use Rattle.std.specs.Prelude.{◌≡◌};
ghost use Rattle.refusal.specs.Refusals.{number_of};

// The refusals in the order of their numbers, which their callers see: 1 for the first. The Rust crate has the same names.
#[derive(Clone, Copy)]
pub enum Refusal {
    SourceTooLong,
    NotAscii,
    BadToken,
    DuplicateLabel,
    TableFull,
    ConfigTokens,
    KeyExpected,
    NumberExpected,
    UnknownKey,
    LimbBitsRange,
    LimbBitsOdd,
    DataLimbsRange,
    AddrLimbsRange,
    MnemonicExpected,
    UnknownMnemonic,
    OperandCount,
    RegisterExpected,
    NoSuchRegister,
    CommaExpected,
    OpeningExpected,
    ClosingExpected,
    TooManyWords,
    ImageTooShort,
    HeaderCut,
    WrongMagic,
    WrongVersion,
    CodeSize,
    ImageLength,
    UnusualHeader,
    UnknownOpcode,
    UnusedBit,
    TextTooShort,
    NoSuchLabel,
    LabelTooFar,
    NumberOutOfRange,
}

impl From<Refusal> for u8 {
    fn from(refusal: Refusal) -> u8
        ensures { result ≡ number_of refusal }
    {
        refusal as u8 + 1
    }
}
