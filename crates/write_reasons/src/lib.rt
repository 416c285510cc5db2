// What is asked about a write, and the rules that forbid one: a verdict is a `Result<(), WriteReason>`, whose error is the first of them.
#![tactic(auto)]

ghost use Rattle.std.specs.Prelude.{◌≡◌};
ghost use Rattle.write_reasons.specs.Reasons.{reason_number};

use bus::Space;

// Data byte k of a write leg, from its first address on, the I2C session open or not.
#[derive(Clone, Copy)]
pub struct DataByteAsked {
    pub session: bool,
    pub spoiled: bool,
    pub space: Space,
    pub first: u16,
    pub k: u16,
    pub x: u8,
}

// The write that is asked about.
#[derive(Clone, Copy)]
pub enum WriteAsked {
    // By the wire.
    DataByte(DataByteAsked),
    // By radio, with its open session: a block; the register of a pointer, and the byte for it; a password.
    Block { session: u8, block: u16 },
    Pointer { session: u8, pointer: u8, x: u8 },
    PasswordOf { session: u8, n: u8 },
}

// What stands where the write goes.
#[derive(Clone, Copy)]
pub enum WritePlace {
    Unmapped,
    UserMemory,
    DynamicByte,
    MailboxByte,
    SystemRegister,
    PasswordByte,
}

// The rules that forbid a write, in the order in which they are asked.
#[derive(Clone, Copy)]
pub enum WriteReason {
    LegSpoiled,
    OutsideMap,
    MailboxModeOn,
    ModeOff,
    MailboxBusy,
    MailboxLegNotFrom2008,
    AnotherArea,
    LockedBlock,
    AreaNeverWritable,
    ConfigurationLocked,
    // The session of a password, by its number if it has one.
    SessionNeeded(Option<u8>),
    RegisterReadOnly,
    PasswordCode,
    EndaRule,
    PageFull,
}

impl WriteReason {
    // Its place in that order, from 1: the number under which it is named.
    pub fn number(self) -> u8
        ensures { result ≡ reason_number self }
    {
        match self {
            WriteReason::LegSpoiled => 1,
            WriteReason::OutsideMap => 2,
            WriteReason::MailboxModeOn => 3,
            WriteReason::ModeOff => 4,
            WriteReason::MailboxBusy => 5,
            WriteReason::MailboxLegNotFrom2008 => 6,
            WriteReason::AnotherArea => 7,
            WriteReason::LockedBlock => 8,
            WriteReason::AreaNeverWritable => 9,
            WriteReason::ConfigurationLocked => 10,
            WriteReason::SessionNeeded(_) => 11,
            WriteReason::RegisterReadOnly => 12,
            WriteReason::PasswordCode => 13,
            WriteReason::EndaRule => 14,
            WriteReason::PageFull => 15,
        }
    }
}
