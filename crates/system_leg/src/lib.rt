// A write leg in system space, at its Stop: the password leg, or registers.
#![tactic(auto)]

ghost use Rattle.std.specs.Prelude.{◌≡◌};
ghost use Rattle.tag.specs.Layout.{page};
ghost use Rattle.effect.specs.Effect.{leg_result};
ghost use Rattle.system_leg.specs.SystemLeg.{password_written, system_written};

use keys::Password;
use tag::{Core, Host, WireSide};

// A password leg of k bytes.
fn password_written(w: WireSide, m: &[u8], k: u16) -> WireSide
    ensures { leg_result result m.now ≡ password_written w m.now (page k m.now) }
{
    let first = Password::at(m, tag::PAGE_AT);
    let second = Password::at(m, tag::PAGE_AT + 9);
    let own = w.core.passwords.i2c;
    if k < 17 {
        return w;
    }
    if parts::byte_at(m, tag::PAGE_AT + 8) == 0x09 {
        let open = (own == first) & (own == second);
        return WireSide {
            host: Host {
                session: open,
                ..w.host
            },
            ..w
        };
    }
    if first == second {
        let passwords = w.core.passwords.with_i2c(first);
        return effect::start_programming(effect::with_core(
            w,
            Core {
                passwords,
                ..w.core
            },
        ));
    }
    w
}

// A leg in system space written.
#[tactic(auto, using(parts::proofs::Picks::picks), unfolding(crate::specs::SystemLeg::system_written))]
pub fn system_written(w: WireSide, m: &[u8], first: u16, k: u16) -> WireSide
    ensures { leg_result result m.now ≡ system_written w m.now first (page k m.now) }
{
    if first == 0x0900 {
        return password_written(w, m, k);
    }
    let registers = written_registers::written_all(w.core.registers, m, first, k);
    effect::start_programming(effect::with_core(
        w,
        Core {
            registers,
            ..w.core
        },
    ))
}
