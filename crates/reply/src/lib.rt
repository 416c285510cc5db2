// Replies to frames, written into the lent reply buffer.
#![tactic(auto)]

ghost use Rattle.std.specs.Prelude.{◌≡◌, [], ◌∷◌, List, ℕ, ◌+◌};
ghost use Rattle.crc.specs.Crc.{closed_at};
ghost use Rattle.reply.specs.Reply.{good, fault, reply_result, put_reply};
ghost use Rattle.reply.specs.Outcome.{fails, finish, radio_result, with_air, side_registers, side_mailbox, side_passwords};

use air::Air;
use errors::RadioError;
use keys::Passwords;
use mailbox::Mailbox;
use registers::Registers;
use tag::Core;

// What a request may change.
#[derive(Clone, Copy)]
pub struct RadioSide {
    pub air: Air,
    pub core: Core,
}

impl RadioSide {
    pub fn with_air(self, air: Air) -> RadioSide
        ensures { result ≡ with_air air self }
    {
        RadioSide { air, ..self }
    }

    pub fn with_registers(self, registers: Registers) -> RadioSide
        ensures { result ≡ side_registers registers self }
    {
        RadioSide {
            core: Core {
                registers,
                ..self.core
            },
            ..self
        }
    }

    pub fn with_mailbox(self, mailbox: Mailbox) -> RadioSide
        ensures { result ≡ side_mailbox mailbox self }
    {
        RadioSide {
            core: Core {
                mailbox,
                ..self.core
            },
            ..self
        }
    }

    pub fn with_passwords(self, passwords: Passwords) -> RadioSide
        ensures { result ≡ side_passwords passwords self }
    {
        RadioSide {
            core: Core {
                passwords,
                ..self.core
            },
            ..self
        }
    }
}

#[derive(Clone, Copy)]
pub struct RadioOutcome {
    // The length of the reply, CRC included; None: silence.
    pub answer: Option<usize>,
    pub side: RadioSide,
}

// Closes a reply of n bytes that stand in the buffer, and gives its length, CRC included.
pub fn close(out: &mut [u8], n: u32) -> usize
    ensures { reply_result (Some result) out.new ≡ reply_result (Some (n + 2)) (closed_at out.old n) }
{
    let at = n as usize;
    crc::close(out, at);
    at + 2
}

// An error reply.
pub fn error(out: &mut [u8], error: RadioError) -> usize
    ensures { reply_result (Some result) out.new ≡ put_reply (fault error) out.old }
{
    parts::put(out, 0, 0x01);
    parts::put(out, 1, error.code());
    close(out, 2)
}

// An error reply, and the side that it leaves.
pub fn fail(v: RadioSide, out: &mut [u8], reason: RadioError) -> RadioOutcome
    ensures { (m : List ℕ) → radio_result result m out.new ≡ finish (fails reason v m) out.old }
{
    RadioOutcome {
        answer: Some(error(out, reason)),
        side: v,
    }
}

// A good reply without data.
pub fn done(out: &mut [u8]) -> usize
    ensures { reply_result (Some result) out.new ≡ put_reply (good []) out.old }
{
    parts::put(out, 0, 0x00);
    close(out, 1)
}

// A good reply of one byte.
pub fn byte(out: &mut [u8], x: u8) -> usize
    ensures { reply_result (Some result) out.new ≡ put_reply (good (x ∷ [])) out.old }
{
    parts::put(out, 0, 0x00);
    parts::put(out, 1, x);
    close(out, 2)
}
