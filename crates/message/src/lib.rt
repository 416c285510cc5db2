// Commands that read the mailbox: the length of its message, and its bytes.
#![tactic(auto)]

ghost use Rattle.std.specs.Prelude.{◌≡◌};
ghost use Rattle.reply.specs.Outcome.{radio_result, finish};
ghost use Rattle.message.specs.Message.{length_of, asked, mailbox_after_read, read_message_of};

use errors::RadioError;
use mailbox::Mailbox;
use reply::{RadioOutcome, RadioSide};

// AB.
pub fn length(v: RadioSide, m: &[u8], out: &mut [u8]) -> RadioOutcome
    ensures { radio_result result m.now out.new ≡ finish (length_of v m.now) out.old }
{
    let b = v.core.mailbox;
    if !b.enabled {
        return reply::fail(v, out, RadioError::MailboxDisabled);
    }
    RadioOutcome {
        answer: Some(reply::byte(out, b.length_byte())),
        side: v,
    }
}

// How many bytes are asked for.
#[tactic(auto, using(parts::proofs::Picks::picks), unfolding(crate::specs::Message::asked))]
pub fn asked(mailbox: Mailbox, pointer: u8, n: u8) -> u16
    ensures { result ≡ asked mailbox pointer n }
{
    if (pointer == 0) & (n == 0) {
        return mailbox.length;
    }
    n as u16 + 1
}

#[tactic(auto, using(parts::proofs::Picks::picks), unfolding(crate::specs::Message::mailbox_after_read))]
fn mailbox_after(mailbox: Mailbox, pointer: u8, count: u16) -> Mailbox
    ensures { result ≡ mailbox_after_read mailbox pointer count }
{
    if mailbox.host.current & (pointer as u32 + count as u32 == mailbox.length as u32) {
        return mailbox.radio_read();
    }
    mailbox
}

// AC.
pub fn read(v: RadioSide, m: &[u8], out: &mut [u8], pointer: u8, n: u8) -> RadioOutcome
    ensures { radio_result result m.now out.new ≡ finish (read_message_of v m.now pointer n) out.old }
{
    let b = v.core.mailbox;
    if !b.enabled {
        return reply::fail(v, out, RadioError::MailboxDisabled);
    }
    let count = asked(b, pointer, n);
    if ((b.length as u32) < pointer as u32 + count as u32) | (b.length == 0) {
        return reply::fail(v, out, RadioError::PastMessage);
    }
    parts::put(out, 0, 0x00);
    parts::put_bytes(
        out,
        1,
        m,
        tag::MAILBOX_AT + pointer as usize,
        count as usize,
    );
    let next = v.with_mailbox(mailbox_after(b, pointer, count));
    RadioOutcome {
        answer: Some(reply::close(out, 1 + count as u32)),
        side: next,
    }
}
