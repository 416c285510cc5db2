// What a line says.
#![tactic(auto)]

ghost use Rattle.std.specs.Prelude.{◌≡◌, get_or, drop};
ghost use Rattle.reading.specs.Line.{line_by, alone, level, byte_sent, frame_sent, tabbed, line_of};

#[derive(Clone, Copy)]
pub enum Reading {
    // The signal's code, and its value.
    Signal { code: u8, value: u16 },
    // The digits of a frame without CRC stand after the tab.
    Frame,
}

// A letter without a value.
#[tactic(auto, using(parts::proofs::Picks::picks), unfolding(crate::specs::Line::line_by, crate::specs::Line::alone))]
fn alone(s: &[u8]) -> Option<Reading>
    ensures { line_by result (drop 2 s.now) ≡ alone (get_or s.now 0 0) }
{
    match parts::byte_at(s, 0) {
        b'S' => Some(Reading::Signal { code: 3, value: 0 }),
        b'P' => Some(Reading::Signal { code: 6, value: 0 }),
        b'D' => Some(Reading::Signal { code: 7, value: 0 }),
        b'E' => Some(Reading::Signal { code: 9, value: 0 }),
        _ => None,
    }
}

// 0 or 1.
fn level(code: u8, s: &[u8]) -> Option<Reading>
    ensures { line_by result s.now ≡ level code s.now }
{
    let x = parts::byte_at(s, 0);
    if (s.len() == 1) & ((x == b'0') | (x == b'1')) {
        return Some(Reading::Signal {
            code,
            value: u16::from(x - b'0'),
        });
    }
    None
}

// Two hex digits.
#[tactic(auto, using(parts::proofs::Picks::picks), unfolding(crate::specs::Line::line_by, crate::specs::Line::byte_sent))]
fn byte_sent(s: &[u8]) -> Option<Reading>
    ensures { line_by result s.now ≡ byte_sent s.now }
{
    if s.len() != 2 {
        return None;
    }
    if hexadecimal::all_hex(s) {
        let x = hexadecimal::hex_byte(parts::byte_at(s, 0), parts::byte_at(s, 1));
        return Some(Reading::Signal {
            code: 4,
            value: u16::from(x),
        });
    }
    None
}

// A frame, a byte or more.
#[tactic(auto, using(parts::proofs::Picks::picks), unfolding(crate::specs::Line::line_by, crate::specs::Line::frame_sent))]
fn frame_sent(s: &[u8]) -> Option<Reading>
    ensures { line_by result s.now ≡ frame_sent s.now }
{
    let hex = hexadecimal::all_hex(s);
    if (2 <= s.len()) & (s.len() % 2 == 0) & hex {
        return Some(Reading::Frame);
    }
    None
}

// A letter, and what follows its tab.
#[tactic(auto, using(parts::proofs::Picks::picks), unfolding(crate::specs::Line::line_by, crate::specs::Line::tabbed))]
fn tabbed(letter: u8, s: &[u8]) -> Option<Reading>
    ensures { line_by result s.now ≡ tabbed letter s.now }
{
    match letter {
        b'V' => level(1, s),
        b'F' => level(2, s),
        b'B' => byte_sent(s),
        b'G' => level(5, s),
        b'R' => frame_sent(s),
        _ => None,
    }
}

// A line without its line feed; none: a bad line.
pub fn read(s: &[u8]) -> Option<Reading>
    ensures { line_by result (drop 2 s.now) ≡ line_of s.now }
{
    if 1200 < s.len() {
        return None;
    }
    if s.len() == 1 {
        return alone(s);
    }
    if s.len() < 2 {
        return None;
    }
    if s[1] != 0x09 {
        return None;
    }
    tabbed(s[0], &s[2..])
}
