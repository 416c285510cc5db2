// A write leg in user space, at its Stop.
#![tactic(auto)]

ghost use Rattle.std.specs.Prelude.{◌≡◌, get_or};
ghost use Rattle.tag.specs.Layout.{page};
ghost use Rattle.effect.specs.Effect.{leg_result};
ghost use Rattle.user_leg.specs.UserLeg.{user_written};

use tag::{Core, WireSide};

// Byte i of a page of k bytes, 0 past them.
#[tactic(auto, using(parts::proofs::Lists::bytes_at_get_d, parts::proofs::Lists::bytes_at_past))]
fn page_byte(m: &[u8], k: u16, i: u16) -> u8
    ensures { result ≡ get_or (page k m.now) i 0 }
{
    if i < k {
        return parts::byte_in(m, tag::PAGE_AT, i as usize);
    }
    0
}

// A leg in user space written: the page's k bytes from the first address on.
#[tactic(auto, using(parts::proofs::Picks::picks, parts::proofs::Lists::copied_down, parts::proofs::Lists::length_bytes_at), unfolding(crate::specs::UserLeg::user_written))]
pub fn user_written(w: WireSide, m: &mut [u8], first: u16, k: u16) -> WireSide
    ensures { leg_result result m.new ≡ user_written w m.old first (page k m.old) }
{
    let c = w.core;
    match first {
        0..=511 => {
            parts::copy_bytes(m, first as usize, tag::PAGE_AT, k as usize);
            effect::start_programming(w)
        }
        dynamic::RF_MNGT_DYN => {
            let registers = c.registers.with_dynamic(page_byte(m, k, 0));
            effect::with_core(w, Core { registers, ..c })
        }
        dynamic::MB_CTRL_DYN => {
            let mailbox = c
                .mailbox
                .control(page_byte(m, k, 0), c.registers.mode, w.host.vcc);
            effect::with_core(w, Core { mailbox, ..c })
        }
        _ => {
            parts::copy_bytes(m, tag::MAILBOX_AT, tag::PAGE_AT, k as usize);
            let mailbox = c.mailbox.host_put(k);
            effect::with_core(w, Core { mailbox, ..c })
        }
    }
}
