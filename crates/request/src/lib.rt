// A request's fields, as the commands take them.
#![tactic(auto)]

ghost use Rattle.std.specs.Prelude.{◌≡◌};
ghost use Rattle.request.specs.Request.{request_of};

use commands::CommandRow;
use keys::Uid;

// A frame's fields.
#[derive(Clone, Copy)]
pub struct RequestFields {
    // None: an unknown command.
    pub command: Option<CommandRow>,
    // The first two bytes of its parameters.
    pub first: u8,
    pub second: u8,
    pub option: bool,
    // Its UID is the tag's.
    pub own: bool,
    // The place of its parameters.
    pub at: u8,
}

pub fn fields(f: &[u8], u: Uid) -> RequestFields
    ensures { result ≡ request_of f.now u }
{
    let at = frame::param_place(f);
    let command = commands::command_of(frame::command(f));
    RequestFields {
        command,
        first: frame::param(f, 0),
        second: frame::param(f, 1),
        option: frame::option(f),
        own: frame::own_uid(f, u),
        at: at as u8,
    }
}
