// Commands that write and lock blocks of user memory.
#![tactic(auto)]

ghost use Rattle.std.specs.Prelude.{◌≡◌, ◌+◌};
ghost use Rattle.reply.specs.Outcome.{radio_result, finish};
ghost use Rattle.block_writes.specs.Writes.{write_of, lock_of};
ghost use Rattle.block_writes.specs.Claims.{all_allowed};

use errors::RadioError;
use register_types::{DefinedBits, LockCcFile};
use reply::{RadioOutcome, RadioSide};
use tag::Core;
use write_reasons::WriteAsked;

// Whether the verdict allows the radio each of the blocks from the first on, more being one less than their number.
pub fn all_allowed(c: Core, m: &[u8], session: u8, first: u8, more: u8) -> bool
    ensures { result ≡ all_allowed c session first (more + 1) }
{
    let n = more as u16 + 1;
    let mut all = true;
    for k in 0..n {
        let asked = WriteAsked::Block {
            session,
            block: first as u16 + k,
        };
        let verdict = write_verdict::verdict(c, m, asked);
        all &= verdict.is_ok();
    }
    all
}

// 21 and 24, more being one less than the count; the data stand at a place of the frame.
pub fn write(
    v: RadioSide,
    m: &mut [u8],
    out: &mut [u8],
    first: u8,
    more: u8,
    frame: &[u8],
    at: usize,
) -> RadioOutcome
    ensures { radio_result result m.new out.new ≡ finish (write_of v m.old first more frame.now at) out.old }
{
    let r = v.core.registers;
    let last = first as u16 + more as u16;
    if 3 < more {
        return reply::fail(v, out, RadioError::TooManyBlocks);
    }
    if tag::BLOCKS <= first as u16 {
        return reply::fail(v, out, RadioError::NoSuchBlock);
    }
    if blocks::leaves_area(r.ends, first as u16, last) {
        return reply::fail(v, out, RadioError::WriteLeavesArea);
    }
    if !all_allowed(v.core, m, v.air.session, first, more) {
        return reply::fail(v, out, RadioError::WriteForbidden);
    }
    parts::put_bytes(m, 4 * (first as usize), frame, at, 4 * (more as usize + 1));
    RadioOutcome {
        answer: Some(reply::done(out)),
        side: v,
    }
}

// 22.
pub fn lock(v: RadioSide, m: &[u8], out: &mut [u8], block: u8) -> RadioOutcome
    ensures { radio_result result m.now out.new ≡ finish (lock_of v m.now block) out.old }
{
    let r = v.core.registers;
    if 1 < block {
        return reply::fail(v, out, RadioError::NotLockable);
    }
    if rights::is_locked(r.ccfile, block as u16) {
        return reply::fail(v, out, RadioError::AlreadyLocked);
    }
    let bits = LockCcFile::keep(r.ccfile.bits) + (block + 1);
    let next = v.with_registers(r.write_to(register_table::CCFILE_PLACE, bits));
    RadioOutcome {
        answer: Some(reply::done(out)),
        side: next,
    }
}
