// A request served: each command by its code.
#![tactic(auto)]

ghost use Rattle.std.specs.Prelude.{◌≡◌};
ghost use Rattle.reply.specs.Outcome.{radio_result, finish};
ghost use Rattle.serve.specs.Commands.{serve_command, serve_of};

use commands::Command;
use reply::{RadioOutcome, RadioSide};
use request::RequestFields;

// Serves a command. Of m each takes only the right that it needs, & or &mut, so v, m and out are no struct.
#[tactic(auto, unfolding(crate::specs::Commands::serve_command))]
fn serve_command(
    command: Command,
    q: RequestFields,
    v: RadioSide,
    vcc: bool,
    m: &mut [u8],
    out: &mut [u8],
    f: &[u8],
) -> RadioOutcome
    ensures { radio_result result m.new out.new ≡ finish (serve_command command q v vcc m.old f.now) out.old }
{
    let first = q.first;
    let second = q.second;
    let at = q.at as usize;
    match command {
        Command::StayQuiet => radio_state::stay_quiet(v, m, out),
        Command::Select => radio_state::select(v, m, out, q.own),
        Command::ResetToReady => radio_state::reset(v, m, out),
        Command::ReadSingleBlock => blocks::read(v, m, out, q.option, first, 0),
        Command::ReadMultipleBlocks => blocks::read(v, m, out, q.option, first, second),
        Command::WriteSingleBlock => block_writes::write(v, m, out, first, 0, f, at + 1),
        Command::WriteMultipleBlocks => block_writes::write(v, m, out, first, second, f, at + 2),
        Command::LockBlock => block_writes::lock(v, m, out, first),
        Command::GetMultipleBlockSecurityStatus => block_status::status(v, m, out, first, second),
        Command::ReadConfiguration => config::read(v, m, out, first),
        Command::WriteConfiguration => config::write(v, m, out, first, second),
        Command::ReadDynamicConfiguration => dynamic_config::read_dynamic(v, m, out, first),
        Command::WriteDynamicConfiguration => dynamic_config::write_dynamic(
            v, m, out, vcc, first, second,
        ),
        Command::WriteMessage => message_writes::write(v, m, out, first, f, at + 1),
        Command::ReadMessageLength => message::length(v, m, out),
        Command::ReadMessage => message::read(v, m, out, first, second),
        Command::PresentPassword => password::present(v, m, out, first, f, at + 1),
        Command::WritePassword => password::write(v, m, out, first, f, at + 1),
    }
}

// Serves a request.
pub fn serve(
    q: RequestFields,
    v: RadioSide,
    vcc: bool,
    m: &mut [u8],
    out: &mut [u8],
    f: &[u8],
) -> RadioOutcome
    ensures { radio_result result m.new out.new ≡ finish (serve_of q v vcc m.old f.now) out.old }
{
    match q.command {
        None => RadioOutcome {
            answer: None,
            side: v,
        },
        Some(row) => serve_command(row.command, q, v, vcc, m, out, f),
    }
}
