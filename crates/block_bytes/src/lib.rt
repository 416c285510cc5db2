// A block in a reply.
#![tactic(auto)]

ghost use Rattle.std.specs.Prelude.{◌≡◌, length};
ghost use Rattle.std.proofs.lemmas.List.Edits.{sets};
ghost use Rattle.block_bytes.specs.Block.{block_of};

use tag::Core;

// Writes a block, with the option its status first, at the start of a part of the reply.
fn put_block(part: &mut [u8], c: Core, session: u8, m: &[u8], option: bool, block: u16) -> u32
    ensures value { result ≡ length (block_of c.registers session m.now option block) }
    ensures part_after { part.new ≡ sets part.old 0 (block_of c.registers session m.now option block) }
{
    let at = 4 * (block as usize);
    if option {
        let status = block_status::status_of(c, m, session, block);
        parts::put(part, 0, status);
        parts::put_bytes(part, 1, m, at, 4);
        return 5;
    }
    parts::put_bytes(part, 0, m, at, 4);
    4
}

// The same at a place of the reply; nothing past its end.
pub fn put_block_at(
    out: &mut [u8],
    at: u32,
    c: Core,
    session: u8,
    m: &[u8],
    option: bool,
    block: u16,
) -> u32
    ensures value { result ≡ length (block_of c.registers session m.now option block) }
    ensures out_after { out.new ≡ sets out.old at (block_of c.registers session m.now option block) }
{
    let from = at as usize;
    if out.len() < from {
        if option {
            return 5;
        }
        return 4;
    }
    put_block(&mut out[from..], c, session, m, option, block)
}
