// The commands of the radio side: the code of each, whether it takes the option, its bytes of parameters.
#![tactic(auto)]

ghost use Rattle.std.specs.Prelude.{◌≡◌, ◌≤◌};
ghost use Rattle.commands.specs.Table.{command_of, is_known, takes_option, size_of, param_bytes};

// The codes that the judge asks for by themselves.
pub const STAY_QUIET: u8 = 0x02;

pub const SELECT: u8 = 0x25;

#[derive(Clone, Copy)]
pub enum Command {
    StayQuiet,
    Select,
    ResetToReady,
    ReadSingleBlock,
    ReadMultipleBlocks,
    WriteSingleBlock,
    WriteMultipleBlocks,
    LockBlock,
    GetMultipleBlockSecurityStatus,
    ReadConfiguration,
    WriteConfiguration,
    ReadDynamicConfiguration,
    WriteDynamicConfiguration,
    WriteMessage,
    ReadMessageLength,
    ReadMessage,
    PresentPassword,
    WritePassword,
}

// How many bytes of parameters a command takes.
#[derive(Clone, Copy)]
pub enum ParamSize {
    Bytes(u8),
    // First block, count-1, four bytes a block.
    BlockData,
    // Length-1, data.
    MessageData,
}

#[derive(Clone, Copy)]
pub struct CommandRow {
    pub command: Command,
    pub option: bool,
    pub size: ParamSize,
}

fn known(command: Command, option: bool, size: ParamSize) -> Option<CommandRow>
    ensures { result ≡ Some (record { command = command; option = option; size = size }) }
{
    Some(CommandRow {
        command,
        option,
        size,
    })
}

// What a command code stands for; an unknown one has no row.
#[tactic(auto, using(parts::proofs::Picks::picks), unfolding(crate::specs::Table::command_of, crate::specs::Table::command_table, rule_list::specs::RuleList::first_says))]
pub fn command_of(code: u8) -> Option<CommandRow>
    ensures { result ≡ command_of code }
{
    match code {
        STAY_QUIET => known(Command::StayQuiet, false, ParamSize::Bytes(0)),
        SELECT => known(Command::Select, false, ParamSize::Bytes(0)),
        0x26 => known(Command::ResetToReady, false, ParamSize::Bytes(0)),
        0x20 => known(Command::ReadSingleBlock, true, ParamSize::Bytes(1)),
        0x23 => known(Command::ReadMultipleBlocks, true, ParamSize::Bytes(2)),
        0x21 => known(Command::WriteSingleBlock, true, ParamSize::Bytes(5)),
        0x24 => known(Command::WriteMultipleBlocks, true, ParamSize::BlockData),
        0x22 => known(Command::LockBlock, true, ParamSize::Bytes(1)),
        0x2C => known(
            Command::GetMultipleBlockSecurityStatus,
            false,
            ParamSize::Bytes(2),
        ),
        0xA0 => known(Command::ReadConfiguration, false, ParamSize::Bytes(1)),
        0xA1 => known(Command::WriteConfiguration, true, ParamSize::Bytes(2)),
        0xAD => known(
            Command::ReadDynamicConfiguration,
            false,
            ParamSize::Bytes(1),
        ),
        0xAE => known(
            Command::WriteDynamicConfiguration,
            false,
            ParamSize::Bytes(2),
        ),
        0xAA => known(Command::WriteMessage, false, ParamSize::MessageData),
        0xAB => known(Command::ReadMessageLength, false, ParamSize::Bytes(0)),
        0xAC => known(Command::ReadMessage, false, ParamSize::Bytes(2)),
        0xB3 => known(Command::PresentPassword, false, ParamSize::Bytes(9)),
        0xB1 => known(Command::WritePassword, true, ParamSize::Bytes(9)),
        _ => None,
    }
}

#[tactic(auto, unfolding(crate::specs::Table::size_of))]
fn size_of(size: ParamSize, first: u8, second: u8) -> usize
    ensures value { result ≡ size_of size first second }
    ensures upper_bound { result ≤ 1026 }
{
    match size {
        ParamSize::Bytes(n) => n as usize,
        ParamSize::BlockData => 2 + 4 * (second as usize + 1),
        ParamSize::MessageData => 1 + (first as usize + 1),
    }
}

#[tactic(auto, unfolding(crate::specs::Table::is_known))]
pub fn is_known(code: u8) -> bool
    ensures { result ≡ is_known (command_of code) }
{
    command_of(code).is_some()
}

#[tactic(auto, unfolding(crate::specs::Table::takes_option))]
pub fn takes_option(code: u8) -> bool
    ensures { result ≡ takes_option (command_of code) }
{
    command_of(code).is_some_and(|row| row.option)
}

// The first two bytes of the parameters may say how many there are.
#[tactic(auto, unfolding(crate::specs::Table::param_bytes))]
pub fn param_bytes(code: u8, first: u8, second: u8) -> usize
    ensures value { result ≡ param_bytes (command_of code) first second }
    ensures upper_bound { result ≤ 1026 }
{
    command_of(code).map_or(0, |row| size_of(row.size, first, second))
}
