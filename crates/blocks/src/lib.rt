// Commands that read blocks of user memory.
#![tactic(auto)]

ghost use Rattle.std.specs.Prelude.{◌≡◌, ◌+◌, ◌≤◌, length};
ghost use Rattle.std.proofs.lemmas.List.Edits.{sets};
ghost use Rattle.reply.specs.Outcome.{radio_result, finish};
ghost use Rattle.blocks.specs.Blocks.{leaves_area, blocks_of, read_of};

use errors::RadioError;
use registers::Ends;
use reply::{RadioOutcome, RadioSide};
use rights::Side;
use tag::Core;

// Whether blocks first to last leave an area or the memory.
pub fn leaves_area(e: Ends, first: u16, last: u16) -> bool
    ensures { result ≡ leaves_area e first last }
{
    let a = areas::area_of_block(e, first);
    let b = areas::area_of_block(e, last);
    (tag::BLOCKS <= last) | (a != b)
}

// Writes n blocks from the first on after the reply's first byte, each into the part after the earlier ones.
fn put_blocks(
    out: &mut [u8],
    c: Core,
    session: u8,
    m: &[u8],
    option: bool,
    first: u8,
    n: u16,
) -> u32
    requires { n ≤ 256 }
    ensures value { result ≡ 1 + length (blocks_of c.registers session m.now option first n) }
    ensures out_after { out.new ≡ sets out.old 1 (blocks_of c.registers session m.now option first n) }
{
    let mut at: u32 = 1;
    for k in 0..n {
        at += block_bytes::put_block_at(out, at, c, session, m, option, first as u16 + k);
    }
    at
}

// 20 and 23, more being one less than the count.
pub fn read(
    v: RadioSide,
    m: &[u8],
    out: &mut [u8],
    option: bool,
    first: u8,
    more: u8,
) -> RadioOutcome
    ensures { radio_result result m.now out.new ≡ finish (read_of v m.now option first more) out.old }
{
    let r = v.core.registers;
    let session = v.air.session;
    let start = first as u16;
    let last = start + more as u16;
    let above = tag::BLOCKS <= start;
    let leaving = leaves_area(r.ends, start, last);
    if above {
        return reply::fail(v, out, RadioError::NoSuchBlock);
    }
    if leaving {
        return reply::fail(v, out, RadioError::ReadLeavesArea);
    }
    if !rights::may_read(r, Side::Radio(session), start) {
        return reply::fail(v, out, RadioError::ReadProtected);
    }
    parts::put(out, 0, 0x00);
    let n = put_blocks(out, v.core, session, m, option, first, more as u16 + 1);
    RadioOutcome {
        answer: Some(reply::close(out, n)),
        side: v,
    }
}
