// The system registers as one table: the row of an address says where the register's byte stands among those of all
// registers, and who may do what with it.
#![tactic(auto)]

ghost use Rattle.std.specs.Prelude.{◌≡◌, get_or};
ghost use Rattle.parts.specs.Bits.{keep_bits};
ghost use Rattle.register_table.specs.Table.{place_bits, row_of};

use register_types::{
    Afi, DefinedBits, Dsfid, EndA, I2cSs, LockCcFile, LockCfg, MbMode, RfMngt, RfaSs,
};

// How many bytes the registers are, RF_MNGT_Dyn among them.
pub const REGISTER_BYTES: usize = 15;

// The places that something else than the table names: RF_MNGT, RF_MNGT_Dyn, LOCK_CCFILE.
pub const MNGT_PLACE: u8 = 0;

pub const DYNAMIC_PLACE: u8 = 1;

pub const CCFILE_PLACE: u8 = 10;

// No register: reads FFh, and a write changes nothing.
pub const NO_PLACE: u8 = 0xFF;

// The defined bits of the byte at each place.
pub const MASKS: [u8; REGISTER_BYTES] = [
    RfMngt::MASK,
    RfMngt::MASK,
    RfaSs::MASK,
    EndA::MASK,
    RfaSs::MASK,
    EndA::MASK,
    RfaSs::MASK,
    EndA::MASK,
    RfaSs::MASK,
    I2cSs::MASK,
    LockCcFile::MASK,
    MbMode::MASK,
    LockCfg::MASK,
    Dsfid::MASK,
    Afi::MASK,
];

// The defined bits of a byte for a place; past the last place there are none.
pub fn keep_defined(place: u8, byte: u8) -> u8
    ensures { result ≡ keep_bits (get_or place_bits place 0) byte }
{
    byte & parts::byte_at(&MASKS, place as usize)
}

// What a write of a register asks or does beside storing the byte.
#[derive(Clone, Copy)]
pub enum WriteRule {
    Plain,
    // ENDAi: the rule of the ends.
    AreaEnd(u8),
    // MB_MODE: 0 disables the mailbox.
    MailboxMode,
}

// What is known of the register at an address.
#[derive(Clone, Copy)]
pub struct RegisterRow {
    pub place: u8,
    pub rule: WriteRule,
    // The host may write it, with the session open.
    pub host: bool,
    // The radio reads and writes it, by its address as pointer.
    pub radio: bool,
}

impl RegisterRow {
    // In the columns of the definition's table: fields by name would take a row six lines.
    fn new(place: u8, rule: WriteRule, host: bool, radio: bool) -> RegisterRow
        ensures { result ≡ record { place = place; rule = rule; host = host; radio = radio } }
    {
        RegisterRow {
            place,
            rule,
            host,
            radio,
        }
    }
}

// The row of a system address: the one list of addresses.
#[tactic(auto, using(register_types::proofs::Passed::picks), unfolding(crate::specs::Table::row_of, crate::specs::Table::row_in))]
pub fn row_of(at: u32) -> RegisterRow
    ensures { result ≡ row_of at }
{
    match at {
        // RF_MNGT.
        0x03 => RegisterRow::new(MNGT_PLACE, WriteRule::Plain, true, true),
        // RFA1SS to RFA4SS, and ENDA1 to ENDA3 between them.
        0x04 => RegisterRow::new(2, WriteRule::Plain, true, true),
        0x05 => RegisterRow::new(3, WriteRule::AreaEnd(1), true, true),
        0x06 => RegisterRow::new(4, WriteRule::Plain, true, true),
        0x07 => RegisterRow::new(5, WriteRule::AreaEnd(2), true, true),
        0x08 => RegisterRow::new(6, WriteRule::Plain, true, true),
        0x09 => RegisterRow::new(7, WriteRule::AreaEnd(3), true, true),
        0x0A => RegisterRow::new(8, WriteRule::Plain, true, true),
        // I2CSS.
        0x0B => RegisterRow::new(9, WriteRule::Plain, true, false),
        // LOCK_CCFILE.
        0x0C => RegisterRow::new(CCFILE_PLACE, WriteRule::Plain, true, false),
        // MB_MODE.
        0x0D => RegisterRow::new(11, WriteRule::MailboxMode, true, true),
        // LOCK_CFG.
        0x0F => RegisterRow::new(12, WriteRule::Plain, true, true),
        // DSFID and AFI.
        0x12 => RegisterRow::new(13, WriteRule::Plain, false, false),
        0x13 => RegisterRow::new(14, WriteRule::Plain, false, false),
        _ => RegisterRow::new(NO_PLACE, WriteRule::Plain, false, false),
    }
}
