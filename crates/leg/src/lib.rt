// What a write leg's bytes do at its end, and what the fetch of a message's last byte does.
#![tactic(auto)]

ghost use Rattle.std.specs.Prelude.{◌≡◌};
ghost use Rattle.tag.specs.Layout.{page};
ghost use Rattle.effect.specs.Effect.{leg_result};
ghost use Rattle.leg.specs.Leg.{leg_written, acts_at_start, last_fetched};

use bus::Space;
use tag::{Core, WireSide};

// A write leg's effect: the page's k bytes, all Acked, in a space from the first address on.
#[tactic(auto, unfolding(crate::specs::Leg::leg_written))]
pub fn leg_written(space: Space, w: WireSide, m: &mut [u8], first: u16, k: u16) -> WireSide
    ensures { leg_result result m.new ≡ leg_written space w m.old first (page k m.old) }
{
    match space {
        Space::User => user_leg::user_written(w, m, first, k),
        Space::System => system_leg::system_written(w, m, first, k),
    }
}

// Whether a leg's bytes take effect at a Start as well as at a Stop.
#[tactic(auto, unfolding(crate::specs::Leg::acts_at_start))]
pub fn acts_at_start(space: Space, first: u16) -> bool
    ensures { result ≡ acts_at_start space first }
{
    match space {
        Space::User => dynamic::host_writes(first),
        Space::System => false,
    }
}

// The last byte of an RF message was fetched.
pub fn last_fetched(w: WireSide) -> WireSide
    ensures { result ≡ last_fetched w }
{
    let mailbox = w.core.mailbox.host_read();
    effect::with_core(w, Core { mailbox, ..w.core })
}
