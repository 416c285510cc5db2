// The ranges of a tag's state, decided for every state that can be handed in.
#![tactic(auto)]

ghost use Rattle.std.specs.Prelude.{◌≡◌, Bool};
ghost use Rattle.ranges.specs.Ranges.{registers_in_range, air_in_range, mailbox_in_range, supplied_in_range, transfer_in_range, host_in_range, core_in_range, wire_in_range, in_range};

use air::Air;
use bus::OpenTransfer;
use mailbox::Mailbox;
use register_types::{DefinedBits, RfMngt};
use registers::Registers;
use tag::{Core, Host, Tag, WireSide};

fn registers_in_range(r: Registers) -> bool
    ensures { result ≡ registers_in_range r }
{
    areas::ends_in_range(r.ends) & defined_bits::is_defined(r)
}

fn air_in_range(a: Air) -> bool
    ensures { result ≡ air_in_range a }
{
    (a.session <= 4) & (a.slots <= 15) & ((a.slots == 0) | (a.field & !air::is_quiet(a.radio)))
}

fn mailbox_in_range(mailbox: Mailbox) -> bool
    ensures { result ≡ mailbox_in_range mailbox }
{
    let current = mailbox.host.current | mailbox.rf.current;
    (mailbox.length <= 256)
        & !(mailbox.host.current & mailbox.rf.current)
        & (!mailbox.host.put | mailbox.host.current)
        & (!mailbox.rf.put | mailbox.rf.current)
        & (((0 < mailbox.length) & current) | ((mailbox.length == 0) & !current))
        & ((mailbox.length == 0) | mailbox.enabled)
}

fn supplied_in_range(h: Host, mailbox: bool) -> bool
    ensures { result ≡ supplied_in_range h mailbox }
{
    h.vcc | !(mailbox | h.session | h.programming | bus::is_active(h.bus))
}

// Whether what is kept of an open transfer has defined bits only.
fn transfer_in_range(transfer: Option<OpenTransfer>) -> bool
    ensures { result ≡ transfer_in_range transfer }
{
    match transfer {
        None => true,
        Some(kept) => RfMngt::keep(kept.dynamic.bits) == kept.dynamic.bits,
    }
}

fn host_in_range(h: Host) -> bool
    ensures { result ≡ host_in_range h }
{
    (bus::page_bytes(h.bus) <= 256)
        & !(h.programming & bus::is_open(h.bus))
        & transfer_in_range(bus::transfer_at(h.bus))
}

fn core_in_range(c: Core) -> bool
    ensures { result ≡ core_in_range c }
{
    registers_in_range(c.registers) & mailbox_in_range(c.mailbox)
}

// Whether what a transfer may touch is in range.
pub fn wire_in_range(w: WireSide) -> bool
    ensures { result ≡ wire_in_range w }
{
    let host = w.host;
    core_in_range(w.core) & host_in_range(host) & supplied_in_range(host, w.core.mailbox.enabled)
}

// Whether a tag is in range.
pub fn in_range(t: Tag) -> bool
    ensures { result ≡ in_range t }
{
    let air = t.air;
    let host = t.host;
    let core = t.core;
    air_in_range(air) & wire_in_range(WireSide { host, core })
}
