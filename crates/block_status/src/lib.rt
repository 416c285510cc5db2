// The statuses of blocks, and the command that reads them.
#![tactic(auto)]

ghost use Rattle.std.specs.Prelude.{◌≡◌, ◌≤◌};
ghost use Rattle.std.proofs.lemmas.List.Edits.{sets};
ghost use Rattle.reply.specs.Outcome.{radio_result, finish};
ghost use Rattle.block_status.specs.Status.{status_of, statuses_of, status_reply};

use errors::RadioError;
use reply::{RadioOutcome, RadioSide};
use tag::Core;
use write_reasons::WriteAsked;

// The status byte of a block: 1 where the radio may not write it.
pub fn status_of(c: Core, m: &[u8], session: u8, block: u16) -> u8
    ensures { result ≡ status_of c.registers session block }
{
    let asked = WriteAsked::Block { session, block };
    let verdict = write_verdict::verdict(c, m, asked);
    if verdict.is_ok() {
        return 0;
    }
    1
}

// Writes the statuses of n blocks after the reply's first byte.
fn put_statuses(out: &mut [u8], c: Core, m: &[u8], session: u8, first: u8, n: u16)
    requires { n ≤ 256 }
    ensures { out.new ≡ sets out.old 1 (statuses_of c.registers session first n) }
{
    for k in 0..n {
        let status = status_of(c, m, session, first as u16 + k);
        parts::put_in(out, 1, k as usize, status);
    }
}

// 2C, more being one less than the count.
pub fn status(v: RadioSide, m: &[u8], out: &mut [u8], first: u8, more: u8) -> RadioOutcome
    ensures { radio_result result m.now out.new ≡ finish (status_reply v m.now first more) out.old }
{
    if tag::BLOCKS <= first as u16 {
        return reply::fail(v, out, RadioError::NoSuchBlock);
    }
    let left = tag::BLOCKS - first as u16;
    let n = left.min(more as u16 + 1);
    parts::put(out, 0, 0x00);
    put_statuses(out, v.core, m, v.air.session, first, n);
    RadioOutcome {
        answer: Some(reply::close(out, 1 + n as u32)),
        side: v,
    }
}
