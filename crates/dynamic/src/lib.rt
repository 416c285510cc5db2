// The dynamic registers: their addresses in user space, which of them the host writes, and the radio's pointer.
#![tactic(auto)]

ghost use Rattle.std.specs.Prelude.{◌≡◌};
ghost use Rattle.dynamic.specs.Dynamic.{host_writes};

pub const RF_MNGT_DYN: u16 = 0x2003;

pub const I2C_SSO_DYN: u16 = 0x2004;

pub const MB_CTRL_DYN: u16 = 0x2006;

pub const MB_LEN_DYN: u16 = 0x2007;

// The mailbox's first and last byte.
pub const MAILBOX_FIRST: u16 = 0x2008;

pub const MAILBOX_LAST: u16 = 0x2107;

// The pointer of AD and AE to MB_CTRL_Dyn.
pub const MB_CTRL_POINTER: u8 = 0x0D;

// Whether an address is that of one that the host may write.
pub fn host_writes(address: u16) -> bool
    ensures { result ≡ host_writes address }
{
    matches!(address, RF_MNGT_DYN | MB_CTRL_DYN)
}
