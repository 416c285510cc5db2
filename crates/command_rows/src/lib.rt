// What is asked of a command's row, or of none, whether or not it stands in the table: `commands` asks the same of codes.
#![tactic(auto)]

ghost use Rattle.std.specs.Prelude.{◌≡◌, ◌≤◌};
ghost use Rattle.commands.specs.Table.{is_known, takes_option, param_bytes};

use commands::{CommandRow, ParamSize};

#[tactic(auto, unfolding(commands::specs::Table::is_known))]
pub fn is_known(row: Option<CommandRow>) -> bool
    ensures { result ≡ is_known row }
{
    row.is_some()
}

#[tactic(auto, unfolding(commands::specs::Table::takes_option))]
pub fn takes_option(row: Option<CommandRow>) -> bool
    ensures { result ≡ takes_option row }
{
    row.is_some_and(|row| row.option)
}

// The first two bytes of the parameters may say how many there are.
#[tactic(auto, unfolding(commands::specs::Table::param_bytes, commands::specs::Table::size_of))]
pub fn param_bytes(row: Option<CommandRow>, first: u8, second: u8) -> usize
    ensures value { result ≡ param_bytes row first second }
    ensures upper_bound { result ≤ 1026 }
{
    match row {
        None => 0,
        Some(row) => match row.size {
            ParamSize::Bytes(n) => n as usize,
            ParamSize::BlockData => 2 + 4 * (second as usize + 1),
            ParamSize::MessageData => 1 + (first as usize + 1),
        },
    }
}
