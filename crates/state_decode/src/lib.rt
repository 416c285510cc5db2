// The tag's state of bytes. A byte past the end reads 0.
#![tactic(auto)]

ghost use Rattle.std.specs.Prelude.{◌≡◌, ◌+◌, ◌≤◌, get_or};
ghost use Rattle.state.specs.Layout.{state_bytes, flag_of, word_of, radio_state_of, space_of, air_at, bus_of, bus_at, host_at, registers_at, mailbox_at, passwords_at, tag_of};

use air::{Air, RadioState};
use bus::{Bus, OpenTransfer, Space};
use keys::{Password, Passwords, Uid};
use mailbox::{Mailbox, Message};
use register_types::RfMngt;
use registers::Registers;
use tag::{Core, Host, Tag};

fn radio_state_of(n: u8) -> RadioState
    ensures { result ≡ radio_state_of n }
{
    match n {
        1 => RadioState::Quiet,
        2 => RadioState::Selected,
        _ => RadioState::Ready,
    }
}

fn space_of(n: u8) -> Space
    ensures { result ≡ space_of n }
{
    match n {
        1 => Space::System,
        _ => Space::User,
    }
}

fn word_of(low: u8, high: u8) -> u16
    ensures { result ≡ word_of low high }
{
    u16::from_le_bytes([low, high])
}

// Byte i of what starts at a place.
fn flag_at(s: &[u8], at: usize, i: usize) -> bool
    ensures { result ≡ flag_of (get_or s.now (at + i) 0) }
{
    parts::byte_in(s, at, i) == 1
}

fn air_at(s: &[u8], at: usize) -> Air
    ensures { result ≡ air_at s.now at }
{
    Air {
        field: flag_at(s, at, 0),
        radio: radio_state_of(parts::byte_in(s, at, 1)),
        session: parts::byte_in(s, at, 2),
        slots: parts::byte_in(s, at, 3),
    }
}

fn bus_of(
    kind: u8,
    kept: OpenTransfer,
    space: Space,
    flag: bool,
    last: bool,
    high: u8,
    count: u16,
) -> Bus
    ensures { result ≡ bus_of kind kept space flag last high count }
{
    match kind {
        1 => Bus::Started(if flag { Some(kept) } else { None }),
        2 => Bus::ReadLeg {
            kept,
            space,
            over: flag,
            last,
        },
        3 => Bus::WriteLeg { kept, space },
        4 => Bus::LowAddress { kept, space, high },
        5 => Bus::DataLeg {
            kept,
            space,
            count,
            spoiled: flag,
        },
        _ => Bus::Idle,
    }
}

fn bus_at(s: &[u8], at: usize) -> Bus
    ensures { result ≡ bus_at s.now at }
{
    let dynamic = RfMngt {
        bits: parts::byte_in(s, at, 7),
    };
    let kept = OpenTransfer { dynamic };
    let space = space_of(parts::byte_in(s, at, 1));
    let count = word_of(parts::byte_in(s, at, 5), parts::byte_in(s, at, 6));
    bus_of(
        parts::byte_in(s, at, 0),
        kept,
        space,
        flag_at(s, at, 2),
        flag_at(s, at, 3),
        parts::byte_in(s, at, 4),
        count,
    )
}

fn host_at(s: &[u8], at: usize) -> Host
    requires { at ≤ state_bytes }
    ensures { result ≡ host_at s.now at }
{
    Host {
        vcc: flag_at(s, at, 0),
        session: flag_at(s, at, 1),
        programming: flag_at(s, at, 2),
        counter: word_of(parts::byte_in(s, at, 3), parts::byte_in(s, at, 4)),
        bus: bus_at(s, at + state::BUS_OFFSET),
    }
}

fn registers_at(s: &[u8], at: usize) -> Registers
    ensures { result ≡ registers_at s.now at }
{
    let mut b = [0u8; state::REGISTERS_PART_LENGTH];
    parts::put_bytes(&mut b, 0, s, at, state::REGISTERS_PART_LENGTH);
    Registers::from_bytes(b)
}

fn mailbox_at(s: &[u8], at: usize) -> Mailbox
    ensures { result ≡ mailbox_at s.now at }
{
    Mailbox {
        enabled: flag_at(s, at, 0),
        host: Message {
            put: flag_at(s, at, 1),
            current: flag_at(s, at, 3),
        },
        rf: Message {
            put: flag_at(s, at, 2),
            current: flag_at(s, at, 4),
        },
        length: word_of(parts::byte_in(s, at, 5), parts::byte_in(s, at, 6)),
    }
}

fn passwords_at(s: &[u8], at: usize) -> Passwords
    requires { at ≤ state_bytes }
    ensures { result ≡ passwords_at s.now at }
{
    Passwords {
        rf0: Password::at(s, at + 8),
        rf1: Password::at(s, at + 16),
        rf2: Password::at(s, at + 24),
        rf3: Password::at(s, at + 32),
        i2c: Password::at(s, at),
    }
}

// The tag of bytes that decode; of others, some tag.
pub fn decode(s: &[u8]) -> Tag
    ensures { result ≡ tag_of s.now }
{
    let core = Core {
        registers: registers_at(s, state::REGISTERS_PART_PLACE),
        mailbox: mailbox_at(s, state::MAILBOX_PART_PLACE),
        passwords: passwords_at(s, state::PASSWORDS_PART_PLACE),
    };
    Tag {
        air: air_at(s, state::AIR_PART_PLACE),
        host: host_at(s, state::HOST_PART_PLACE),
        core,
        uid: Uid::at(s, state::UID_PART_PLACE),
    }
}
