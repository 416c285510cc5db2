// The tag's state as bytes: how long each part is and where it stands. Which bytes they are, the definitions say.
#![tactic(auto)]

pub const AIR_PART_LENGTH: usize = 4;
// In the host's part: the bytes before the bus, and the bus.
pub const BUS_OFFSET: usize = 5;

pub const BUS_LENGTH: usize = 8;

pub const HOST_PART_LENGTH: usize = BUS_OFFSET + BUS_LENGTH;

pub const REGISTERS_PART_LENGTH: usize = register_table::REGISTER_BYTES;

pub const MAILBOX_PART_LENGTH: usize = 7;

pub const PASSWORDS_PART_LENGTH: usize = 5 * 8;

pub const UID_PART_LENGTH: usize = 8;

// Each stands where the one before it ends.
pub const AIR_PART_PLACE: usize = 0;

pub const HOST_PART_PLACE: usize = AIR_PART_PLACE + AIR_PART_LENGTH;

pub const REGISTERS_PART_PLACE: usize = HOST_PART_PLACE + HOST_PART_LENGTH;

pub const MAILBOX_PART_PLACE: usize = REGISTERS_PART_PLACE + REGISTERS_PART_LENGTH;

pub const PASSWORDS_PART_PLACE: usize = MAILBOX_PART_PLACE + MAILBOX_PART_LENGTH;

pub const UID_PART_PLACE: usize = PASSWORDS_PART_PLACE + PASSWORDS_PART_LENGTH;

pub const STATE_BYTES: usize = UID_PART_PLACE + UID_PART_LENGTH;
