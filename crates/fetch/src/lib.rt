// The bytes that fetches give, and whether one is the last of an RF message.
#![tactic(auto)]

ghost use Rattle.std.specs.Prelude.{◌≡◌, ◌-◌};
ghost use Rattle.dynamic.specs.Dynamic.{mailbox_first};
ghost use Rattle.fetch.specs.Fetch.{memory_byte, mailbox_byte, user_byte, system_byte, fetched, is_last};

use bus::Space;
use keys::Uid;
use mailbox::Mailbox;
use rights::Side;
use tag::Core;

#[tactic(auto, using(parts::proofs::Picks::picks), unfolding(crate::specs::Fetch::memory_byte))]
fn memory_byte(c: Core, session: bool, m: &[u8], address: u16) -> u8
    ensures { result ≡ memory_byte c session m.now address }
{
    if rights::may_read(c.registers, Side::Wire(session), address / 4) {
        return parts::byte_at(m, address as usize);
    }
    0xFF
}

// The place in the mailbox of an address.
fn mailbox_place(address: u16) -> u16
    ensures { result ≡ address - mailbox_first }
{
    address.saturating_sub(dynamic::MAILBOX_FIRST)
}

#[tactic(auto, using(parts::proofs::Picks::picks), unfolding(crate::specs::Fetch::mailbox_byte))]
fn mailbox_byte(mailbox: Mailbox, m: &[u8], address: u16) -> u8
    ensures { result ≡ mailbox_byte mailbox m.now address }
{
    let i = mailbox_place(address);
    if mailbox.enabled & (i < mailbox.length) {
        return parts::byte_in(m, tag::MAILBOX_AT, i as usize);
    }
    0xFF
}

// The byte at an address of user space.
#[tactic(auto, using(parts::proofs::Picks::picks), unfolding(crate::specs::Fetch::user_byte))]
fn user_byte(c: Core, session: bool, m: &[u8], address: u16) -> u8
    ensures { result ≡ user_byte c session m.now address }
{
    match address {
        0..=511 => memory_byte(c, session, m, address),
        dynamic::RF_MNGT_DYN => c.registers.dynamic.bits,
        dynamic::I2C_SSO_DYN => u8::from(session),
        dynamic::MB_CTRL_DYN => c.mailbox.control_byte(),
        dynamic::MB_LEN_DYN => c.mailbox.length_byte(),
        dynamic::MAILBOX_FIRST..=dynamic::MAILBOX_LAST => mailbox_byte(c.mailbox, m, address),
        _ => 0xFF,
    }
}

// The byte at an address of system space.
#[tactic(auto, using(parts::proofs::Picks::picks), unfolding(crate::specs::Fetch::system_byte))]
fn system_byte(c: Core, u: Uid, address: u16) -> u8
    ensures { result ≡ system_byte c u address }
{
    match address {
        0x0018..=0x001F => u.byte(address as usize - 0x0018),
        _ => c.registers.read(address),
    }
}

// The byte that a fetch gives at an address.
#[tactic(auto, unfolding(crate::specs::Fetch::fetched))]
pub fn fetched(space: Space, c: Core, session: bool, u: Uid, m: &[u8], address: u16) -> u8
    ensures { result ≡ fetched space c session u m.now address }
{
    match space {
        Space::User => user_byte(c, session, m, address),
        Space::System => system_byte(c, u, address),
    }
}

// Whether an address has the last byte of an RF message.
#[tactic(auto, unfolding(crate::specs::Fetch::is_last))]
pub fn is_last(space: Space, mailbox: Mailbox, address: u16) -> bool
    ensures { result ≡ is_last space mailbox address }
{
    match space {
        Space::User => mailbox.rf.current
            & (u32::from(address) + 1
                == u32::from(dynamic::MAILBOX_FIRST) + u32::from(mailbox.length)),
        Space::System => false,
    }
}
