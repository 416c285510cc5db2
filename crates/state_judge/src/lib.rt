// Whether bytes are those of a tag's state. A byte past the end reads 0.
#![tactic(auto)]

ghost use Rattle.std.specs.Prelude.{◌≡◌, ◌+◌, ◌≤◌, get_or};
ghost use Rattle.state.specs.Layout.{state_bytes, is_flag, used_or0, air_decodes, is_bus, bus_decodes, host_decodes, mailbox_decodes, decodes};

// Byte i of what starts at a place.
fn is_flag_at(s: &[u8], at: usize, i: usize) -> bool
    ensures { result ≡ is_flag (get_or s.now (at + i) 0) }
{
    parts::byte_in(s, at, i) <= 1
}

fn air_decodes(s: &[u8], at: usize) -> bool
    ensures { result ≡ air_decodes s.now at }
{
    is_flag_at(s, at, 0) & (parts::byte_in(s, at, 1) <= 2)
}

// A byte that the bus uses, or 0.
fn used_or_0(used: bool, x: u8) -> bool
    ensures { result ≡ used_or0 used x }
{
    used | (x == 0)
}

fn is_bus(kind: u8, space: u8, flag: u8, last: u8, high: u8, low: u8, top: u8, dynamic: u8) -> bool
    ensures { result ≡ is_bus kind space flag last high low top dynamic }
{
    (kind <= 5)
        & ((space <= 1) & used_or_0(2 <= kind, space))
        & ((flag <= 1) & used_or_0((kind == 1) | (kind == 2) | (kind == 5), flag))
        & ((last <= 1) & used_or_0(kind == 2, last))
        & used_or_0(kind == 4, high)
        & used_or_0(kind == 5, low)
        & used_or_0(kind == 5, top)
        & used_or_0((2 <= kind) | ((kind == 1) & (flag == 1)), dynamic)
}

fn bus_decodes(s: &[u8], at: usize) -> bool
    ensures { result ≡ bus_decodes s.now at }
{
    is_bus(
        parts::byte_in(s, at, 0),
        parts::byte_in(s, at, 1),
        parts::byte_in(s, at, 2),
        parts::byte_in(s, at, 3),
        parts::byte_in(s, at, 4),
        parts::byte_in(s, at, 5),
        parts::byte_in(s, at, 6),
        parts::byte_in(s, at, 7),
    )
}

fn host_decodes(s: &[u8], at: usize) -> bool
    requires { at ≤ state_bytes }
    ensures { result ≡ host_decodes s.now at }
{
    is_flag_at(s, at, 0)
        & is_flag_at(s, at, 1)
        & is_flag_at(s, at, 2)
        & bus_decodes(s, at + state::BUS_OFFSET)
}

fn mailbox_decodes(s: &[u8], at: usize) -> bool
    ensures { result ≡ mailbox_decodes s.now at }
{
    is_flag_at(s, at, 0)
        & is_flag_at(s, at, 1)
        & is_flag_at(s, at, 2)
        & is_flag_at(s, at, 3)
        & is_flag_at(s, at, 4)
}

// Whether bytes decode to a tag.
pub fn decodes(s: &[u8]) -> bool
    ensures { result ≡ decodes s.now }
{
    (s.len() == state::STATE_BYTES)
        & air_decodes(s, state::AIR_PART_PLACE)
        & host_decodes(s, state::HOST_PART_PLACE)
        & mailbox_decodes(s, state::MAILBOX_PART_PLACE)
}
