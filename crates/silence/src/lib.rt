// The silence list: whether a frame gets no answer and changes nothing.
#![tactic(auto)]

ghost use Rattle.std.specs.Prelude.{◌≡◌};
ghost use Rattle.rule_list.specs.RuleList.{first_says};
ghost use Rattle.silence_rules.specs.Silence.{maker_differs, uid_differs, silence_holds, silence_number, reception_silences, address_silences, first_silence, is_silent};

use air::Air;
use keys::Uid;
use register_types::RfMngt;

// "02h missing or other".
#[tactic(auto, unfolding(silence_rules::specs::Silence::maker_differs))]
fn maker_differs(f: &[u8]) -> bool
    ensures { result ≡ maker_differs f.now }
{
    let custom = 0xA0 <= frame::command(f);
    let end = frame::crc_place(f);
    let maker = parts::byte_at(f, 2);
    custom & ((end < 3) | (maker != 0x02))
}

// "UID short or, except in Select, other".
#[tactic(auto, using(parts::proofs::Picks::picks), unfolding(silence_rules::specs::Silence::uid_differs))]
fn uid_differs(f: &[u8], u: Uid) -> bool
    ensures { result ≡ uid_differs f.now u }
{
    if parts::byte_at(f, 0) / 0x20 % 2 != 1 {
        return false;
    }
    let end = frame::crc_place(f);
    let at = frame::param_place(f);
    let select = frame::command(f) == commands::SELECT;
    let own = frame::own_uid(f, u);
    (end < at) | (!select & !own)
}

// The number of the first of the rules that every frame meets first, or 0. The CRC is computed only where the length is right.
#[tactic(auto, using(parts::proofs::Picks::picks), unfolding(rule_list::specs::RuleList::first_says, silence_rules::specs::Silence::silence_holds, silence_rules::specs::Silence::silence_number, silence_rules::specs::Silence::reception_silences))]
pub fn first_of_reception(f: &[u8], a: Air, dynamic: RfMngt) -> u8
    ensures { (u : Uid) → result ≡ first_says (silence_holds f.now a u dynamic) silence_number 0 reception_silences }
{
    if !a.field {
        return 21;
    }
    if dynamic.bits / 2 % 2 == 1 {
        return 22;
    }
    if (f.len() < 4) | (270 < f.len()) {
        return 23;
    }
    if !crc::is_good(f) {
        return 24;
    }
    0
}

// And then a request.
#[tactic(auto, using(parts::proofs::Picks::picks), unfolding(rule_list::specs::RuleList::first_says, silence_rules::specs::Silence::silence_holds, silence_rules::specs::Silence::silence_number, silence_rules::specs::Silence::address_silences))]
fn first_of_address(f: &[u8], a: Air, u: Uid) -> u8
    ensures { (dynamic : RfMngt) → result ≡ first_says (silence_holds f.now a u dynamic) silence_number 0 address_silences }
{
    let radio = a.radio;
    let flags = parts::byte_at(f, 0);
    let select = flags / 0x10 % 2 == 1;
    let address = flags / 0x20 % 2 == 1;
    if select & address {
        return 26;
    }
    if maker_differs(f) {
        return 27;
    }
    if uid_differs(f, u) {
        return 28;
    }
    let selected = air::is_selected(radio);
    if select & !selected {
        return 29;
    }
    let quiet = air::is_quiet(radio);
    if !select & !address & quiet {
        return 30;
    }
    let c = frame::command(f);
    if ((c == commands::SELECT) | (c == commands::STAY_QUIET)) & !address {
        return 31;
    }
    0
}

// The number of the first rule that holds, or 0, as st25dv_explain gives it.
pub fn first_silence(f: &[u8], a: Air, u: Uid, dynamic: RfMngt) -> u8
    ensures { result ≡ first_silence f.now a u dynamic }
{
    let rule = first_of_reception(f, a, dynamic);
    if rule != 0 {
        return rule;
    }
    first_of_address(f, a, u)
}

// The silence list, one rule after the other up to the first that holds.
pub fn is_silent(f: &[u8], a: Air, u: Uid, dynamic: RfMngt) -> bool
    ensures { result ≡ is_silent f.now a u dynamic }
{
    first_silence(f, a, u, dynamic) != 0
}
