// The rights and locks of both sides.
#![tactic(auto)]

ghost use Rattle.std.specs.Prelude.{◌≡◌};
ghost use Rattle.rights.specs.Rights.{security_of, session_opens, radio_reads, wire_bits, wire_guards, wire_reads, is_locked, read_right, may_read};

use register_types::{I2cSs, LockCcFile, RfaSs};
use registers::{Registers, Security};

// RFAiSS of an area. Areas stay numbers, 1 to 4: an enum would promise less to a caller with any byte.
#[tactic(auto, using(parts::proofs::Picks::picks), unfolding(crate::specs::Rights::security_of))]
pub fn security_of(security: Security, area: u8) -> RfaSs
    ensures { result ≡ security_of security area }
{
    match area {
        1 => security.area1,
        2 => security.area2,
        3 => security.area3,
        _ => security.area4,
    }
}

// Whether the open radio session is the one that an area names.
#[tactic(auto, unfolding(crate::specs::Rights::session_opens))]
pub fn session_opens(security: RfaSs, session: u8) -> bool
    ensures { result ≡ session_opens security session }
{
    (security.bits % 4 != 0) & (session == security.bits % 4 + 1)
}

#[tactic(auto, using(parts::proofs::Picks::picks), unfolding(crate::specs::Rights::radio_reads))]
fn radio_reads(security: RfaSs, area: u8, session: u8) -> bool
    ensures { result ≡ radio_reads security area session }
{
    (area == 1) | (security.bits / 4 % 4 < 2) | session_opens(security, session)
}

// The two bits of I2CSS of an area.
#[tactic(auto, using(parts::proofs::Picks::picks), unfolding(crate::specs::Rights::wire_bits))]
fn wire_bits(security: I2cSs, area: u8) -> u8
    ensures { result ≡ wire_bits security area }
{
    match area {
        1 => security.bits % 4,
        2 => security.bits / 4 % 4,
        3 => security.bits / 16 % 4,
        _ => security.bits / 64 % 4,
    }
}

// Whether a write by the wire needs the I2C session in an area. A bit is read by its weight, 1 too, as is_set reads it.
#[tactic(auto, unfolding(crate::specs::Rights::wire_guards))]
pub fn wire_guards(security: I2cSs, area: u8) -> bool
    ensures { result ≡ wire_guards security area }
{
    let bits = wire_bits(security, area);
    bits / 1 % 2 == 1
}

#[tactic(auto, unfolding(crate::specs::Rights::wire_reads))]
fn wire_reads(security: I2cSs, area: u8, session: bool) -> bool
    ensures { result ≡ wire_reads security area session }
{
    let bits = wire_bits(security, area);
    session | (area == 1) | !(bits / 2 % 2 == 1)
}

// Whether LOCK_CCFILE locks a block.
#[tactic(auto, unfolding(crate::specs::Rights::is_locked))]
pub fn is_locked(lock: LockCcFile, block: u16) -> bool
    ensures { result ≡ is_locked lock block }
{
    ((block == 0) & (lock.bits / 1 % 2 == 1)) | ((block == 1) & (lock.bits / 2 % 2 == 1))
}

// The side that asks, with its open session: on the wire whether, on the radio which.
#[derive(Clone, Copy)]
pub enum Side {
    Wire(bool),
    Radio(u8),
}

// Whether a side may read an area.
#[tactic(auto, unfolding(crate::specs::Rights::read_right))]
pub fn read_right(r: Registers, by: Side, area: u8) -> bool
    ensures { result ≡ read_right r by area }
{
    match by {
        Side::Wire(session) => wire_reads(r.i2css, area, session),
        Side::Radio(session) => radio_reads(security_of(r.security, area), area, session),
    }
}

// Whether a side may read a block.
#[tactic(auto, unfolding(crate::specs::Rights::may_read))]
pub fn may_read(r: Registers, by: Side, block: u16) -> bool
    ensures { result ≡ may_read r by block }
{
    read_right(r, by, areas::area_of_block(r.ends, block))
}
