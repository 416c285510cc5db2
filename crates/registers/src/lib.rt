// The tag's registers, all of them together: as bytes, each at its place, and read and written by their addresses.
#![tactic(auto)]

ghost use Rattle.std.specs.Prelude.{◌≡◌};
ghost use Rattle.register_types.specs.Types.{rf_mngt};
ghost use Rattle.registers.specs.Fresh.{fresh_registers};
ghost use Rattle.registers.specs.Map.{register_bytes, registers_of, byte_of, register_at, with_dynamic, put_defined, written_to, written};

use register_table::REGISTER_BYTES;
use register_types::{
    Afi, DefinedBits, Dsfid, EndA, I2cSs, LockCcFile, LockCfg, MbMode, RfMngt, RfaSs,
};

// RFA1SS to RFA4SS.
#[derive(Clone, Copy)]
pub struct Security {
    pub area1: RfaSs,
    pub area2: RfaSs,
    pub area3: RfaSs,
    pub area4: RfaSs,
}

// ENDA1 to ENDA3.
#[derive(Clone, Copy)]
pub struct Ends {
    pub end1: EndA,
    pub end2: EndA,
    pub end3: EndA,
}

#[derive(Clone, Copy)]
pub struct Registers {
    // RF_MNGT.
    pub mngt: RfMngt,
    // RF_MNGT_Dyn.
    pub dynamic: RfMngt,
    pub security: Security,
    pub ends: Ends,
    pub i2css: I2cSs,
    pub ccfile: LockCcFile,
    // MB_MODE.
    pub mode: MbMode,
    // LOCK_CFG.
    pub config: LockCfg,
    pub dsfid: Dsfid,
    pub afi: Afi,
}

// Puts a byte at a place of the registers' bytes, its defined bits kept.
#[tactic(auto, unfolding(crate::specs::Map::put_defined))]
fn put_defined(s: &mut [u8], place: u8, byte: u8)
    ensures { s.new ≡ put_defined place byte s.old }
{
    let kept = register_table::keep_defined(place, byte);
    parts::put(s, place as usize, kept);
}

impl Registers {
    // The byte at each place.
    #[tactic(auto, unfolding(crate::specs::Map::register_bytes))]
    pub fn to_bytes(self) -> [u8; REGISTER_BYTES]
        ensures { result ≡ register_bytes self }
    {
        [
            self.mngt.bits,
            self.dynamic.bits,
            self.security.area1.bits,
            self.ends.end1.bits,
            self.security.area2.bits,
            self.ends.end2.bits,
            self.security.area3.bits,
            self.ends.end3.bits,
            self.security.area4.bits,
            self.i2css.bits,
            self.ccfile.bits,
            self.mode.bits,
            self.config.bits,
            self.dsfid.bits,
            self.afi.bits,
        ]
    }

    // The registers of such bytes.
    pub fn from_bytes(s: [u8; REGISTER_BYTES]) -> Registers
        ensures { result ≡ registers_of s }
    {
        let [
            mngt,
            dynamic,
            area1,
            end1,
            area2,
            end2,
            area3,
            end3,
            area4,
            i2css,
            ccfile,
            mode,
            config,
            dsfid,
            afi,
        ] = s;
        Registers {
            mngt: RfMngt { bits: mngt },
            dynamic: RfMngt { bits: dynamic },
            security: Security {
                area1: RfaSs { bits: area1 },
                area2: RfaSs { bits: area2 },
                area3: RfaSs { bits: area3 },
                area4: RfaSs { bits: area4 },
            },
            ends: Ends {
                end1: EndA { bits: end1 },
                end2: EndA { bits: end2 },
                end3: EndA { bits: end3 },
            },
            i2css: I2cSs { bits: i2css },
            ccfile: LockCcFile { bits: ccfile },
            mode: MbMode { bits: mode },
            config: LockCfg { bits: config },
            dsfid: Dsfid { bits: dsfid },
            afi: Afi { bits: afi },
        }
    }

    #[tactic(auto, unfolding(crate::specs::Fresh::fresh_registers))]
    pub fn fresh() -> Registers
        ensures { result ≡ fresh_registers }
    {
        let none = RfaSs::new(0);
        let last = EndA::new(0x0F);
        Registers {
            mngt: RfMngt::new(0),
            dynamic: RfMngt::new(0),
            security: Security {
                area1: none,
                area2: none,
                area3: none,
                area4: none,
            },
            ends: Ends {
                end1: last,
                end2: last,
                end3: last,
            },
            i2css: I2cSs::new(0),
            ccfile: LockCcFile::new(0),
            mode: MbMode::new(0),
            config: LockCfg::new(0),
            dsfid: Dsfid::new(0),
            afi: Afi::new(0),
        }
    }

    // RF_MNGT_Dyn written.
    pub fn with_dynamic(self, byte: u8) -> Registers
        ensures { result ≡ with_dynamic (rf_mngt byte) self }
    {
        Registers {
            dynamic: RfMngt::new(byte),
            ..self
        }
    }

    // RF_MNGT_Dyn set to RF_MNGT.
    pub fn reload(self) -> Registers
        ensures { result ≡ with_dynamic self.mngt self }
    {
        Registers {
            dynamic: self.mngt,
            ..self
        }
    }

    // The byte of the register at a place.
    #[tactic(auto, using(parts::proofs::Picks::picks), unfolding(crate::specs::Map::byte_of))]
    pub fn byte_of(self, place: u8) -> u8
        ensures { result ≡ byte_of place self }
    {
        match place {
            register_table::NO_PLACE => 0xFF,
            _ => parts::byte_at(&self.to_bytes(), place as usize),
        }
    }

    // The byte of the register at a system address.
    #[tactic(auto, unfolding(crate::specs::Map::register_at))]
    pub fn read(self, at: u16) -> u8
        ensures { result ≡ register_at self at }
    {
        let row = register_table::row_of(at as u32);
        self.byte_of(row.place)
    }

    // The registers after a byte was written to the one at a place. RF_MNGT reloads RF_MNGT_Dyn.
    pub fn write_to(self, place: u8, byte: u8) -> Registers
        ensures { result ≡ written_to place byte self }
    {
        let mut s = self.to_bytes();
        put_defined(&mut s, place, byte);
        if place == register_table::MNGT_PLACE {
            put_defined(&mut s, register_table::DYNAMIC_PLACE, byte);
        }
        Registers::from_bytes(s)
    }

    // The registers after a byte was written to a system address.
    #[tactic(auto, unfolding(crate::specs::Map::written))]
    pub fn write(self, at: u16, byte: u8) -> Registers
        ensures { result ≡ written self at byte }
    {
        let row = register_table::row_of(at as u32);
        self.write_to(row.place, byte)
    }
}
