// The tag's state by value: what a field change touches, what is the wire's alone, and what both sides share.
#![tactic(auto)]

mod supply;

use air::Air;
use bus::Bus;
use keys::{Passwords, Uid};
use mailbox::Mailbox;
use registers::Registers;

// Lent memory: user memory, then the mailbox, then the page buffer.
pub const USER_BYTES: usize = 512;

pub const BLOCKS: u16 = 128;

pub const MAILBOX_AT: usize = 512;

pub const PAGE_AT: usize = 768;

pub const MEMORY_BYTES: usize = 1024;
// The longest radio reply.
pub const REPLY_BYTES: usize = 643;

// All that is the wire's alone.
#[derive(Clone, Copy)]
pub struct Host {
    pub vcc: bool,
    pub session: bool,
    pub programming: bool,
    pub counter: u16,
    pub bus: Bus,
}

// What both sides read and write.
#[derive(Clone, Copy)]
pub struct Core {
    pub registers: Registers,
    pub mailbox: Mailbox,
    pub passwords: Passwords,
}

// What a transfer may touch.
#[derive(Clone, Copy)]
pub struct WireSide {
    pub host: Host,
    pub core: Core,
}

#[derive(Clone, Copy)]
pub struct Tag {
    pub air: Air,
    pub host: Host,
    pub core: Core,
    pub uid: Uid,
}
