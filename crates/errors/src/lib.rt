// The errors that a frame may be answered with.
#![tactic(auto)]

ghost use Rattle.std.specs.Prelude.{◌≡◌};
ghost use Rattle.errors.specs.Errors.{error_code, error_number};

// A case for each error rule of document 01, in its order.
#[derive(Clone, Copy)]
pub enum RadioError {
    ShutOut,
    UnknownCommand,
    UnsupportedFlags,
    WrongLength,
    // 20, 23, 21, 24, 2C.
    NoSuchBlock,
    // 20, 23.
    ReadLeavesArea,
    ReadProtected,
    // 24.
    TooManyBlocks,
    // 21, 24.
    WriteLeavesArea,
    WriteForbidden,
    // 22.
    NotLockable,
    AlreadyLocked,
    // A0, A1.
    NoSuchRegister,
    // A1.
    ConfigurationClosed,
    EndRefused,
    // AD, AE.
    NoSuchDynamicRegister,
    // AA.
    MailboxUnavailable,
    // AB, AC.
    MailboxDisabled,
    // AC.
    PastMessage,
    // B3, B1.
    NoSuchPassword,
    // B3.
    WrongPassword,
    // B1.
    PasswordSessionClosed,
}

impl RadioError {
    // The code that stands in the reply.
    pub fn code(self) -> u8
        ensures { result ≡ error_code self }
    {
        match self {
            RadioError::ShutOut => 0x0F,
            RadioError::UnknownCommand => 0x01,
            RadioError::UnsupportedFlags => 0x03,
            RadioError::WrongLength => 0x02,
            RadioError::NoSuchBlock => 0x10,
            RadioError::ReadLeavesArea => 0x0F,
            RadioError::ReadProtected => 0x15,
            RadioError::TooManyBlocks => 0x0F,
            RadioError::WriteLeavesArea => 0x0F,
            RadioError::WriteForbidden => 0x12,
            RadioError::NotLockable => 0x10,
            RadioError::AlreadyLocked => 0x11,
            RadioError::NoSuchRegister => 0x10,
            RadioError::ConfigurationClosed => 0x12,
            RadioError::EndRefused => 0x0F,
            RadioError::NoSuchDynamicRegister => 0x10,
            RadioError::MailboxUnavailable => 0x0F,
            RadioError::MailboxDisabled => 0x0F,
            RadioError::PastMessage => 0x0F,
            RadioError::NoSuchPassword => 0x10,
            RadioError::WrongPassword => 0x0F,
            RadioError::PasswordSessionClosed => 0x12,
        }
    }

    // The number under which the rule is named.
    pub fn number(self) -> u8
        ensures { result ≡ error_number self }
    {
        match self {
            RadioError::ShutOut => 33,
            RadioError::UnknownCommand => 34,
            RadioError::UnsupportedFlags => 35,
            RadioError::WrongLength => 36,
            RadioError::NoSuchBlock => 37,
            RadioError::ReadLeavesArea => 38,
            RadioError::ReadProtected => 39,
            RadioError::TooManyBlocks => 40,
            RadioError::WriteLeavesArea => 41,
            RadioError::WriteForbidden => 42,
            RadioError::NotLockable => 43,
            RadioError::AlreadyLocked => 44,
            RadioError::NoSuchRegister => 45,
            RadioError::ConfigurationClosed => 46,
            RadioError::EndRefused => 47,
            RadioError::NoSuchDynamicRegister => 48,
            RadioError::MailboxUnavailable => 49,
            RadioError::MailboxDisabled => 50,
            RadioError::PastMessage => 51,
            RadioError::NoSuchPassword => 52,
            RadioError::WrongPassword => 53,
            RadioError::PasswordSessionClosed => 54,
        }
    }
}
