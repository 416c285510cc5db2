// The registers one by one: each a type of its own, with its defined bits.
#![tactic(auto)]

ghost use Rattle.std.specs.Prelude.{◌≡◌, ℕ, ◌-◌, ◌^◌, refl};
ghost use Rattle.parts.specs.Bits.{keep_bits};
ghost use Rattle.register_types.specs.Types.{rf_mngt_bits, rfa_ss_bits, end_abits, i2c_ss_bits, lock_cc_file_bits, mb_mode_bits, lock_cfg_bits, dsfid_bits, afi_bits, rf_mngt, rfa_ss, end_a, i2c_ss, lock_cc_file, mb_mode, lock_cfg, dsfid, afi};

// A register of which the lowest bits are defined; the others read 0.
pub trait DefinedBits: Sized {
    const MASK: u8;

    ghost MASK: { ℕ };

    // How many bits are defined.
    ghost defined: { ℕ };

    ghost of_bits: { ℕ → Self };

    // The register that a byte makes.
    ghost of_byte: { ℕ → Self };

    fn of_bits(bits: u8) -> Self
        ensures { result ≡ of_bits bits };

    ghost masked: { MASK ≡ 2 ^ defined - 1 };

    ghost kept: { (byte : ℕ) → of_byte byte ≡ of_bits (keep_bits defined byte) };

    // The defined bits of a byte, the others 0.
    final fn keep(byte: u8) -> u8
        ensures { result ≡ keep_bits defined byte }
    {
        byte & Self::MASK
    }

    final fn new(byte: u8) -> Self
        ensures { result ≡ of_byte byte }
    {
        Self::of_bits(Self::keep(byte))
    }
}

// RF_MNGT and RF_MNGT_Dyn: b0 radio disabled, b1 radio asleep.
#[derive(Clone, Copy)]
pub struct RfMngt {
    pub bits: u8,
}

impl DefinedBits for RfMngt {
    const MASK: u8 = 0x03;

    ghost MASK = { 0x03 };

    ghost defined = { rf_mngt_bits };

    ghost of_bits = { λ b. record { bits = b } };

    ghost of_byte = { rf_mngt };

    fn of_bits(bits: u8) -> RfMngt {
        RfMngt { bits }
    }

    ghost masked = { refl };

    ghost kept = { λ byte. refl };
}

// RFAiSS: b1-0 the password, b3-2 the setting.
#[derive(Clone, Copy)]
pub struct RfaSs {
    pub bits: u8,
}

impl DefinedBits for RfaSs {
    const MASK: u8 = 0x0F;

    ghost MASK = { 0x0F };

    ghost defined = { rfa_ss_bits };

    ghost of_bits = { λ b. record { bits = b } };

    ghost of_byte = { rfa_ss };

    fn of_bits(bits: u8) -> RfaSs {
        RfaSs { bits }
    }

    ghost masked = { refl };

    ghost kept = { λ byte. refl };
}

// ENDAi: area i ends with block 8 * ENDAi + 7.
#[derive(Clone, Copy)]
pub struct EndA {
    pub bits: u8,
}

impl DefinedBits for EndA {
    const MASK: u8 = 0x0F;

    ghost MASK = { 0x0F };

    ghost defined = { end_abits };

    ghost of_bits = { λ b. record { bits = b } };

    ghost of_byte = { end_a };

    fn of_bits(bits: u8) -> EndA {
        EndA { bits }
    }

    ghost masked = { refl };

    ghost kept = { λ byte. refl };
}

// I2CSS: two bits an area, area 1 lowest.
#[derive(Clone, Copy)]
pub struct I2cSs {
    pub bits: u8,
}

impl DefinedBits for I2cSs {
    const MASK: u8 = 0xFF;

    ghost MASK = { 0xFF };

    ghost defined = { i2c_ss_bits };

    ghost of_bits = { λ b. record { bits = b } };

    ghost of_byte = { i2c_ss };

    fn of_bits(bits: u8) -> I2cSs {
        I2cSs { bits }
    }

    ghost masked = { refl };

    ghost kept = { λ byte. refl };
}

// LOCK_CCFILE: b0 locks block 0, b1 block 1.
#[derive(Clone, Copy)]
pub struct LockCcFile {
    pub bits: u8,
}

impl DefinedBits for LockCcFile {
    const MASK: u8 = 0x03;

    ghost MASK = { 0x03 };

    ghost defined = { lock_cc_file_bits };

    ghost of_bits = { λ b. record { bits = b } };

    ghost of_byte = { lock_cc_file };

    fn of_bits(bits: u8) -> LockCcFile {
        LockCcFile { bits }
    }

    ghost masked = { refl };

    ghost kept = { λ byte. refl };
}

// MB_MODE: b0 lets the mailbox be enabled.
#[derive(Clone, Copy)]
pub struct MbMode {
    pub bits: u8,
}

impl DefinedBits for MbMode {
    const MASK: u8 = 0x01;

    ghost MASK = { 0x01 };

    ghost defined = { mb_mode_bits };

    ghost of_bits = { λ b. record { bits = b } };

    ghost of_byte = { mb_mode };

    fn of_bits(bits: u8) -> MbMode {
        MbMode { bits }
    }

    ghost masked = { refl };

    ghost kept = { λ byte. refl };
}

// LOCK_CFG: b0 locks the configuration against the radio.
#[derive(Clone, Copy)]
pub struct LockCfg {
    pub bits: u8,
}

impl DefinedBits for LockCfg {
    const MASK: u8 = 0x01;

    ghost MASK = { 0x01 };

    ghost defined = { lock_cfg_bits };

    ghost of_bits = { λ b. record { bits = b } };

    ghost of_byte = { lock_cfg };

    fn of_bits(bits: u8) -> LockCfg {
        LockCfg { bits }
    }

    ghost masked = { refl };

    ghost kept = { λ byte. refl };
}

// DSFID: the data storage format identifier, which the tag tells in its reply to an inventory.
#[derive(Clone, Copy)]
pub struct Dsfid {
    pub bits: u8,
}

impl DefinedBits for Dsfid {
    const MASK: u8 = 0xFF;

    ghost MASK = { 0xFF };

    ghost defined = { dsfid_bits };

    ghost of_bits = { λ b. record { bits = b } };

    ghost of_byte = { dsfid };

    fn of_bits(bits: u8) -> Dsfid {
        Dsfid { bits }
    }

    ghost masked = { refl };

    ghost kept = { λ byte. refl };
}

// AFI: the application family identifier, by which an inventory may ask.
#[derive(Clone, Copy)]
pub struct Afi {
    pub bits: u8,
}

impl DefinedBits for Afi {
    const MASK: u8 = 0xFF;

    ghost MASK = { 0xFF };

    ghost defined = { afi_bits };

    ghost of_bits = { λ b. record { bits = b } };

    ghost of_byte = { afi };

    fn of_bits(bits: u8) -> Afi {
        Afi { bits }
    }

    ghost masked = { refl };

    ghost kept = { λ byte. refl };
}
