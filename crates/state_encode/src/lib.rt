// The tag's state stored as bytes. A byte stored past the end is dropped.
#![tactic(auto)]

ghost use Rattle.std.specs.Prelude.{◌≡◌, ◌≤◌, length};
ghost use Rattle.std.proofs.lemmas.List.Edits.{sets};
ghost use Rattle.registers.specs.Map.{register_bytes};
ghost use Rattle.state.specs.Layout.{state_bytes, passwords_part_length, radio_number, space_number, air_bytes, transfer_byte, bus_bytes, host_bytes, mailbox_bytes, password_bytes, bytes_of};

use air::{Air, RadioState};
use bus::{Bus, OpenTransfer, Space};
use keys::Passwords;
use mailbox::Mailbox;
use registers::Registers;
use tag::{Host, Tag};

fn radio_number(x: RadioState) -> u8
    ensures { result ≡ radio_number x }
{
    match x {
        RadioState::Ready => 0,
        RadioState::Quiet => 1,
        RadioState::Selected => 2,
    }
}

fn space_number(space: Space) -> u8
    ensures { result ≡ space_number space }
{
    match space {
        Space::User => 0,
        Space::System => 1,
    }
}

fn put_air(a: Air, s: &mut [u8], at: usize)
    ensures { s.new ≡ sets s.old at (air_bytes a) }
{
    let b = [u8::from(a.field), radio_number(a.radio), a.session, a.slots];
    parts::put_bytes(s, at, &b, 0, state::AIR_PART_LENGTH);
}

fn transfer_byte(transfer: Option<OpenTransfer>) -> u8
    ensures { result ≡ transfer_byte transfer }
{
    match transfer {
        None => 0,
        Some(kept) => kept.dynamic.bits,
    }
}

fn bus_bytes(b: Bus) -> [u8; state::BUS_LENGTH]
    ensures { result ≡ bus_bytes b }
{
    match b {
        Bus::Idle => [0, 0, 0, 0, 0, 0, 0, 0],
        Bus::Started(transfer) => [
            1,
            0,
            u8::from(transfer.is_some()),
            0,
            0,
            0,
            0,
            transfer_byte(transfer),
        ],
        Bus::ReadLeg {
            kept,
            space,
            over,
            last,
        } => [
            2,
            space_number(space),
            u8::from(over),
            u8::from(last),
            0,
            0,
            0,
            kept.dynamic.bits,
        ],
        Bus::WriteLeg { kept, space } => [3, space_number(space), 0, 0, 0, 0, 0, kept.dynamic.bits],
        Bus::LowAddress { kept, space, high } => [
            4,
            space_number(space),
            0,
            0,
            high,
            0,
            0,
            kept.dynamic.bits,
        ],
        Bus::DataLeg {
            kept,
            space,
            count,
            spoiled,
        } => {
            let count = count.to_le_bytes();
            [
                5,
                space_number(space),
                u8::from(spoiled),
                0,
                0,
                count[0],
                count[1],
                kept.dynamic.bits,
            ]
        }
    }
}

fn put_host(h: Host, s: &mut [u8], at: usize)
    requires { at ≤ state_bytes }
    ensures { s.new ≡ sets s.old at (host_bytes h) }
{
    let counter = h.counter.to_le_bytes();
    let b = [
        u8::from(h.vcc),
        u8::from(h.session),
        u8::from(h.programming),
        counter[0],
        counter[1],
    ];
    parts::put_bytes(s, at, &b, 0, state::BUS_OFFSET);
    let leg = bus_bytes(h.bus);
    parts::put_bytes(s, at + state::BUS_OFFSET, &leg, 0, state::BUS_LENGTH);
}

fn put_registers(r: Registers, s: &mut [u8], at: usize)
    ensures { s.new ≡ sets s.old at (register_bytes r) }
{
    let b = r.to_bytes();
    parts::put_bytes(s, at, &b, 0, state::REGISTERS_PART_LENGTH);
}

fn put_mailbox(mailbox: Mailbox, s: &mut [u8], at: usize)
    ensures { s.new ≡ sets s.old at (mailbox_bytes mailbox) }
{
    let length = mailbox.length.to_le_bytes();
    let b = [
        u8::from(mailbox.enabled),
        u8::from(mailbox.host.put),
        u8::from(mailbox.rf.put),
        u8::from(mailbox.host.current),
        u8::from(mailbox.rf.current),
        length[0],
        length[1],
    ];
    parts::put_bytes(s, at, &b, 0, state::MAILBOX_PART_LENGTH);
}

fn put_eight(bytes: [u8; 8], s: &mut [u8], at: usize)
    ensures s_after { s.new ≡ sets s.old at bytes }
    ensures bytes_len { length bytes ≡ 8 }
{
    parts::put_bytes(s, at, &bytes, 0, 8);
}

fn put_passwords(p: Passwords, s: &mut [u8], at: usize)
    requires { at ≤ state_bytes }
    ensures s_after { s.new ≡ sets s.old at (password_bytes p) }
    ensures p_len { length (password_bytes p) ≡ passwords_part_length }
{
    put_eight(p.i2c.bytes, s, at);
    put_eight(p.rf0.bytes, s, at + 8);
    put_eight(p.rf1.bytes, s, at + 16);
    put_eight(p.rf2.bytes, s, at + 24);
    put_eight(p.rf3.bytes, s, at + 32);
}

// Stores the bytes of a tag.
pub fn encode(t: Tag, s: &mut [u8])
    ensures s_after { s.new ≡ sets s.old 0 (bytes_of t) }
    ensures t_len { length (bytes_of t) ≡ state_bytes }
{
    let air = t.air;
    let host = t.host;
    let core = t.core;
    let uid = t.uid.bytes;
    put_air(air, s, state::AIR_PART_PLACE);
    put_host(host, s, state::HOST_PART_PLACE);
    put_registers(core.registers, s, state::REGISTERS_PART_PLACE);
    put_mailbox(core.mailbox, s, state::MAILBOX_PART_PLACE);
    put_passwords(core.passwords, s, state::PASSWORDS_PART_PLACE);
    put_eight(uid, s, state::UID_PART_PLACE);
}
