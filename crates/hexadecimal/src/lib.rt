// Hex digits, upper case.
#![tactic(auto)]

ghost use Rattle.std.specs.Prelude.{◌≡◌, [], ◌∷◌, ◌+◌, ◌*◌, ◌/◌, ◌%◌, ◌≤◌, ◌<◌, length, take};
ghost use Rattle.std.proofs.lemmas.List.Edits.{sets};
ghost use Rattle.hexadecimal.specs.Hex.{is_hex, hex_value, all_hex, hex_byte, hex_bytes, hex_digit, hex_text};
ghost use Rattle.text.specs.Place.{stored, text_at};

// Whether a character is 0 to 9 or A to F. With `matches!` the loop of `all_hex` branches at each byte: it takes nearly twice as long.
fn is_hex(x: u8) -> bool
    ensures { result ≡ is_hex x }
{
    ((b'0' <= x) & (x <= b'9')) | ((b'A' <= x) & (x <= b'F'))
}

// Whether all of them are. It goes to the end even past one that is not, so that the compiler can test many at once.
pub fn all_hex(s: &[u8]) -> bool
    ensures { result ≡ all_hex s.now }
{
    let mut all = true;
    for x in s {
        all &= is_hex(*x);
    }
    all
}

// The value of a digit; any other character counts as 0.
#[tactic(auto, using(crate::proofs::HexLaws::hex_values))]
fn hex_value(x: u8) -> u8
    ensures value { result ≡ hex_value x }
    ensures upper_bound { result < 16 }
{
    match x {
        b'0'..=b'9' => x - b'0',
        b'A'..=b'F' => x - b'A' + 10,
        _ => 0,
    }
}

// The byte of two digits, high first.
pub fn hex_byte(high: u8, low: u8) -> u8
    ensures { result ≡ hex_byte high low }
{
    hex_value(high) * 16 + hex_value(low)
}

// Stores the bytes of a list of digits from place 0 on, and gives their number.
pub fn decode(s: &[u8], out: &mut [u8]) -> usize
    ensures value { result ≡ length (hex_bytes s.now) }
    ensures out_after { out.new ≡ sets out.old 0 (hex_bytes s.now) }
{
    let n = s.len() / 2;
    for i in 0..n {
        let b = hex_byte(s[2 * i], s[2 * i + 1]);
        parts::put(out, i, b);
    }
    n
}

// The digit of a number below 16.
fn hex_digit(n: u8) -> u8
    requires { n < 16 }
    ensures { result ≡ hex_digit n }
{
    if n < 10 { b'0' + n } else { b'A' + (n - 10) }
}

// Stores the two digits of a byte at a place.
pub fn put_byte(text: &mut [u8], at: usize, x: u8) -> usize
    ensures { stored result text.new ≡ text_at text.old at (hex_text (x ∷ [])) }
{
    parts::put(text, at, hex_digit(x / 16));
    parts::put_in(text, at, 1, hex_digit(x % 16));
    text::after(at, 2)
}

// Stores the four digits of two bytes, high first.
pub fn put_word(text: &mut [u8], at: usize, n: u16) -> usize
    ensures { stored result text.new ≡ text_at text.old at (hex_text (n / 256 ∷ n % 256 ∷ [])) }
{
    let low = put_byte(text, at, (n / 256) as u8);
    put_byte(text, low, (n % 256) as u8)
}

// Stores the digits of a list of bytes at a place, where there is room for all: no store needs a test, and the compiler
// can make many at once.
fn hex_run(text: &mut [u8], at: usize, s: &[u8])
    requires { at + 2 * length s.now ≤ length text.old }
    ensures { text.new ≡ sets text.old at (hex_text s.now) }
{
    for (i, x) in s.iter().enumerate() {
        text[at + 2 * i] = hex_digit(*x / 16);
        text[at + 2 * i + 1] = hex_digit(*x % 16);
    }
}

// The same whatever room there is, byte by byte.
fn hex_each(text: &mut [u8], at: usize, s: &[u8]) -> usize
    ensures { stored result text.new ≡ text_at text.old at (hex_text s.now) }
{
    let mut to = at;
    for x in s {
        to = put_byte(text, to, *x);
    }
    to
}

// Stores the digits of the first n bytes of s at a place.
pub fn put_hex(text: &mut [u8], at: usize, s: &[u8], n: usize) -> usize
    ensures { stored result text.new ≡ text_at text.old at (hex_text (take n s.now)) }
{
    let s = &s[..n.min(s.len())];
    if (at <= text.len()) && (s.len() <= (text.len() - at) / 2) {
        hex_run(text, at, s);
        return at + 2 * s.len();
    }
    hex_each(text, at, s)
}
