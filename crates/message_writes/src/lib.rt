// The command that writes a message.
#![tactic(auto)]

ghost use Rattle.std.specs.Prelude.{◌≡◌};
ghost use Rattle.reply.specs.Outcome.{radio_result, finish};
ghost use Rattle.message_writes.specs.WriteMessage.{takes_message, write_message_of};

use errors::RadioError;
use mailbox::Mailbox;
use reply::{RadioOutcome, RadioSide};

// Whether the radio may put a message.
#[tactic(auto, unfolding(crate::specs::WriteMessage::takes_message))]
pub fn takes_message(mailbox: Mailbox) -> bool
    ensures { result ≡ takes_message mailbox }
{
    mailbox.enabled & !mailbox.host.put & !mailbox.rf.put
}

// AA, more being one less than the length; the data stand at a place of the frame.
pub fn write(
    v: RadioSide,
    m: &mut [u8],
    out: &mut [u8],
    more: u8,
    frame: &[u8],
    at: usize,
) -> RadioOutcome
    ensures { radio_result result m.new out.new ≡ finish (write_message_of v m.old more frame.now at) out.old }
{
    let b = v.core.mailbox;
    if !takes_message(b) {
        return reply::fail(v, out, RadioError::MailboxUnavailable);
    }
    let n = more as u16 + 1;
    parts::put_bytes(m, tag::MAILBOX_AT, frame, at, n as usize);
    let next = v.with_mailbox(b.radio_put(n));
    RadioOutcome {
        answer: Some(reply::done(out)),
        side: next,
    }
}
