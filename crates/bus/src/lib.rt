// What the bus says of a transfer, and the address counter.
#![tactic(auto)]

ghost use Rattle.std.specs.Prelude.{◌≡◌};
ghost use Rattle.bus.specs.Bus.{is_open_transfer, counted_dynamic, kept_of, transfer_at, is_open, is_active, page_bytes, next_address};

use register_types::RfMngt;

// The address space that a select names.
#[derive(Clone, Copy)]
pub enum Space {
    User,
    System,
}

// What is kept of an open transfer.
#[derive(Clone, Copy)]
pub struct OpenTransfer {
    // RF_MNGT_Dyn at the transfer's start.
    pub dynamic: RfMngt,
}

#[derive(Clone, Copy)]
pub enum Bus {
    Idle,
    // After a Start, with the transfer that is still open.
    Started(Option<OpenTransfer>),
    // A read leg: the host has NoAcked a byte; the last byte of an RF message was fetched.
    ReadLeg {
        kept: OpenTransfer,
        space: Space,
        over: bool,
        last: bool,
    },
    // A write leg before its address.
    WriteLeg {
        kept: OpenTransfer,
        space: Space,
    },
    // A write leg after the high byte of its address.
    LowAddress {
        kept: OpenTransfer,
        space: Space,
        high: u8,
    },
    // A write leg past its address, with its page bytes.
    DataLeg {
        kept: OpenTransfer,
        space: Space,
        count: u16,
        spoiled: bool,
    },
}

pub fn is_open_transfer(transfer: Option<OpenTransfer>) -> bool
    ensures { result ≡ is_open_transfer transfer }
{
    transfer.is_some()
}

// RF_MNGT_Dyn as it counts for a frame.
pub fn counted_dynamic(transfer: Option<OpenTransfer>, dynamic: RfMngt) -> RfMngt
    ensures { result ≡ counted_dynamic transfer dynamic }
{
    kept_of(transfer, dynamic).dynamic
}

// What is kept after an Acked select: one of a later leg leaves it.
pub fn kept_of(transfer: Option<OpenTransfer>, dynamic: RfMngt) -> OpenTransfer
    ensures { result ≡ kept_of transfer dynamic }
{
    transfer.unwrap_or(OpenTransfer { dynamic })
}

#[tactic(auto, unfolding(crate::specs::Bus::transfer_at))]
pub fn transfer_at(b: Bus) -> Option<OpenTransfer>
    ensures { result ≡ transfer_at b }
{
    match b {
        Bus::Idle => None,
        Bus::Started(transfer) => transfer,
        Bus::ReadLeg { kept, .. }
        | Bus::WriteLeg { kept, .. }
        | Bus::LowAddress { kept, .. }
        | Bus::DataLeg { kept, .. } => Some(kept),
    }
}

pub fn is_open(b: Bus) -> bool
    ensures { result ≡ is_open b }
{
    transfer_at(b).is_some()
}

pub fn is_active(b: Bus) -> bool
    ensures { result ≡ is_active b }
{
    !matches!(b, Bus::Idle)
}

pub fn page_bytes(b: Bus) -> u16
    ensures { result ≡ page_bytes b }
{
    match b {
        Bus::DataLeg { count, .. } => count,
        _ => 0,
    }
}

// The address after an address.
pub fn next_address(counter: u16) -> u16
    ensures { result ≡ next_address counter }
{
    std::num::wrapping_add_u16(counter, 1)
}
