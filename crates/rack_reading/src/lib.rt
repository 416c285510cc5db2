// What a line of a rack's script says.
#![tactic(auto)]

ghost use Rattle.std.specs.Prelude.{◌≡◌, drop};
ghost use Rattle.rack_reading.specs.Line.{uid_of, add_sent, is_digit, number_sent, name_sent, search_sent, own_line, rack_line_of, rack_line_by};

use keys::Uid;
use reading::Reading;

#[derive(Clone, Copy)]
pub enum RackReading {
    // The signal's code, and its value.
    Signal { code: u8, value: u16 },
    // The digits of a frame without CRC stand after the tab.
    Frame,
    // The digits of the UID of a tag to add stand after the tab.
    Add,
    // The number of the tag that is named.
    Name(u8),
    // The digits of a search's frame without CRC stand after the tab.
    Search,
}

// The UID that sixteen digits are.
pub fn uid_of(s: &[u8]) -> Uid
    ensures { result ≡ uid_of s.now }
{
    let mut bytes = [0u8; 8];
    hexadecimal::decode(s, &mut bytes);
    Uid { bytes }
}

// U, a tab and the sixteen digits of a UID.
#[tactic(auto, using(parts::proofs::Picks::picks), unfolding(crate::specs::Line::rack_line_by, crate::specs::Line::add_sent))]
fn add_sent(s: &[u8]) -> Option<RackReading>
    ensures { rack_line_by result (drop 2 s.now) ≡ add_sent s.now }
{
    let hex = lines::has_bytes(s);
    if (s.len() == 18) & hex {
        return Some(RackReading::Add);
    }
    None
}

// Whether a character is 0 to 9.
#[tactic(auto, unfolding(crate::specs::Line::is_digit))]
fn is_digit(x: u8) -> bool
    ensures { result ≡ is_digit x }
{
    (0x30 <= x) & (x <= 0x39)
}

// A decimal number, 0 to 255, without leading zeros.
fn number_sent(s: &[u8]) -> Option<RackReading>
    ensures { rack_line_by result s.now ≡ number_sent s.now }
{
    let first = parts::byte_at(s, 0);
    if (s.len() == 0) | ((1 < s.len()) & (first == b'0')) {
        return None;
    }
    let mut n = 0u16;
    for x in s {
        let x = *x;
        if !is_digit(x) {
            return None;
        }
        n = 10 * n + u16::from(x - b'0');
        if 255 < n {
            return None;
        }
    }
    Some(RackReading::Name(n as u8))
}

// T, a tab and a number.
fn name_sent(s: &[u8]) -> Option<RackReading>
    ensures { rack_line_by result (drop 2 s.now) ≡ name_sent s.now }
{
    if s.len() < 2 {
        return None;
    }
    if s[1] != 0x09 {
        return None;
    }
    number_sent(&s[2..])
}

// L, a tab and a frame, a byte or more.
#[tactic(auto, using(parts::proofs::Picks::picks), unfolding(crate::specs::Line::rack_line_by, crate::specs::Line::search_sent))]
fn search_sent(s: &[u8]) -> Option<RackReading>
    ensures { rack_line_by result (drop 2 s.now) ≡ search_sent s.now }
{
    if lines::has_bytes(s) {
        return Some(RackReading::Search);
    }
    None
}

// A line of a rack's own, by its letter.
#[tactic(auto, using(parts::proofs::Picks::picks), unfolding(crate::specs::Line::rack_line_by, crate::specs::Line::own_line))]
fn own_line(s: &[u8]) -> Option<RackReading>
    ensures { rack_line_by result (drop 2 s.now) ≡ own_line s.now }
{
    if 1200 < s.len() {
        return None;
    }
    match parts::byte_at(s, 0) {
        b'U' => add_sent(s),
        b'T' => name_sent(s),
        b'L' => search_sent(s),
        _ => None,
    }
}

// A line without its line feed; none: a bad line.
pub fn read(s: &[u8]) -> Option<RackReading>
    ensures { rack_line_by result (drop 2 s.now) ≡ rack_line_of s.now }
{
    match reading::read(s) {
        None => own_line(s),
        Some(Reading::Signal { code, value }) => Some(RackReading::Signal { code, value }),
        Some(Reading::Frame) => Some(RackReading::Frame),
    }
}
