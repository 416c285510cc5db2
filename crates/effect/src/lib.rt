// A write leg's effect on the wire side: programming started, and the core it leaves.
#![tactic(auto)]

ghost use Rattle.std.specs.Prelude.{◌≡◌};
ghost use Rattle.tag.specs.Parts.{with_wire_core};
ghost use Rattle.effect.specs.Effect.{programming};

use tag::{Core, Host, WireSide};

pub fn start_programming(w: WireSide) -> WireSide
    ensures { result ≡ programming w }
{
    WireSide {
        host: Host {
            programming: true,
            ..w.host
        },
        ..w
    }
}

pub fn with_core(w: WireSide, c: Core) -> WireSide
    ensures { result ≡ with_wire_core c w }
{
    WireSide { core: c, ..w }
}
