// Supply changes, and the fresh tag.
ghost use Rattle.std.specs.Prelude.{◌≡◌};
ghost use Rattle.tag.specs.Supply.{unpowered, vcc_off, vcc_on, vcc_at, fresh_tag};
ghost use Rattle.tag.specs.Parts.{with_bus};

use crate::{Core, Host, Tag, WireSide};
use air::Air;
use bus::Bus;
use keys::{Passwords, Uid};
use mailbox::Mailbox;
use registers::Registers;

impl Host {
    // Without supply.
    pub fn fresh() -> Host
        ensures { result ≡ unpowered }
    {
        Host {
            vcc: false,
            session: false,
            programming: false,
            counter: 0,
            bus: Bus::Idle,
        }
    }

    pub fn with_bus(self, b: Bus) -> Host
        ensures { result ≡ with_bus b self }
    {
        Host { bus: b, ..self }
    }
}

impl WireSide {
    pub fn vcc_off(self) -> WireSide
        ensures { result ≡ vcc_off self }
    {
        WireSide {
            host: Host::fresh(),
            core: Core {
                registers: self.core.registers.reload(),
                mailbox: self.core.mailbox.disable(),
                ..self.core
            },
        }
    }

    pub fn vcc_on(self) -> WireSide
        ensures { result ≡ vcc_on self }
    {
        WireSide {
            host: Host {
                vcc: true,
                ..self.host
            },
            core: Core {
                registers: self.core.registers.reload(),
                ..self.core
            },
        }
    }

    // VCC at a level; a repeated level changes nothing.
    #[tactic(auto, using(registers::proofs::Passed::picks), unfolding(crate::specs::Supply::vcc_at))]
    pub fn vcc_at(self, on: bool) -> WireSide
        ensures { result ≡ vcc_at on self }
    {
        match (self.host.vcc, on) {
            (false, true) => self.vcc_on(),
            (true, false) => self.vcc_off(),
            _ => self,
        }
    }
}

impl Tag {
    pub fn fresh(uid: Uid) -> Tag
        ensures { result ≡ fresh_tag uid }
    {
        Tag {
            air: Air::fresh(),
            host: Host::fresh(),
            core: Core {
                registers: Registers::fresh(),
                mailbox: Mailbox::fresh(),
                passwords: Passwords::fresh(),
            },
            uid,
        }
    }
}
