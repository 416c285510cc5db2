// Commands on the system registers.
#![tactic(auto)]

ghost use Rattle.std.specs.Prelude.{◌≡◌};
ghost use Rattle.reply.specs.Outcome.{radio_result, finish};
ghost use Rattle.config.specs.Config.{read_config_of, mailbox_after_write, written_core, write_config_of};
ghost use Rattle.config.specs.Claims.{config_error};

use errors::RadioError;
use mailbox::Mailbox;
use register_table::WriteRule;
use reply::{RadioOutcome, RadioSide};
use tag::Core;
use write_reasons::{WriteAsked, WriteReason};

// A0.
pub fn read(v: RadioSide, m: &[u8], out: &mut [u8], pointer: u8) -> RadioOutcome
    ensures { radio_result result m.now out.new ≡ finish (read_config_of v m.now pointer) out.old }
{
    let row = register_table::row_of(pointer as u32);
    if !row.radio {
        return reply::fail(v, out, RadioError::NoSuchRegister);
    }
    let x = v.core.registers.read(pointer as u16);
    RadioOutcome {
        answer: Some(reply::byte(out, x)),
        side: v,
    }
}

#[tactic(auto, using(parts::proofs::Picks::picks), unfolding(crate::specs::Config::mailbox_after_write))]
fn mailbox_after(pointer: u8, x: u8, mailbox: Mailbox) -> Mailbox
    ensures { result ≡ mailbox_after_write pointer x mailbox }
{
    let row = register_table::row_of(pointer as u32);
    match row.rule {
        WriteRule::Plain | WriteRule::AreaEnd(_) => mailbox,
        WriteRule::MailboxMode => {
            if x / 1 % 2 == 1 {
                return mailbox;
            }
            mailbox.disable()
        }
    }
}

#[tactic(auto, unfolding(crate::specs::Config::written_core))]
fn written_core(c: Core, pointer: u8, x: u8) -> Core
    ensures { result ≡ written_core c pointer x }
{
    let registers = c.registers.write(pointer as u16, x);
    let mailbox = mailbox_after(pointer, x, c.mailbox);
    Core {
        registers,
        mailbox,
        ..c
    }
}

// The error that A1 gives for a reason.
fn config_error(reason: WriteReason) -> RadioError
    ensures { result ≡ config_error reason }
{
    match reason {
        WriteReason::OutsideMap => RadioError::NoSuchRegister,
        WriteReason::EndaRule => RadioError::EndRefused,
        _ => RadioError::ConfigurationClosed,
    }
}

// A1.
pub fn write(v: RadioSide, m: &[u8], out: &mut [u8], pointer: u8, x: u8) -> RadioOutcome
    ensures { radio_result result m.now out.new ≡ finish (write_config_of v m.now pointer x) out.old }
{
    let asked = WriteAsked::Pointer {
        session: v.air.session,
        pointer,
        x,
    };
    let verdict = write_verdict::verdict(v.core, m, asked);
    match verdict {
        Ok(()) => {
            let core = written_core(v.core, pointer, x);
            RadioOutcome {
                answer: Some(reply::done(out)),
                side: RadioSide { core, ..v },
            }
        }
        Err(reason) => reply::fail(v, out, config_error(reason)),
    }
}
