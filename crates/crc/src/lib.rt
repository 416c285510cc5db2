// The CRC of a frame (ISO/IEC 13239), four bits at a time.
#![tactic(auto)]

ghost use Rattle.std.specs.Prelude.{◌≡◌};
ghost use Rattle.crc.specs.Crc.{remainders, crc_of, byte, good_frame, closed_at};

// The register after four bits, for each register below 16.
const NIBBLES: [u16; 16] = [
    0x0000, 0x1081, 0x2102, 0x3183, 0x4204, 0x5285, 0x6306, 0x7387, 0x8408, 0x9489, 0xa50a, 0xb58b,
    0xc60c, 0xd68d, 0xe70e, 0xf78f,
];

// The register after a byte, whose low four bits go first. An entry's low four bits are its place: so the second
// entry is known without waiting for the first.
fn feed(table: &[u16; 16], register: u16, x: u8) -> u16
    requires { remainders table.now }
    ensures { result ≡ byte register x }
{
    let v = register ^ (x as u16);
    let low = table[(v % 16) as usize];
    let high = table[(((v >> 4) ^ v) % 16) as usize];
    (v >> 8) ^ (low >> 4) ^ high
}

fn over(table: &[u16; 16], s: &[u8]) -> u16
    requires { remainders table.now }
    ensures { result ≡ crc_of s.now }
{
    let mut c: u16 = 0xffff;
    for x in s {
        c = feed(table, c, *x);
    }
    c ^ 0xffff
}

// The CRC of a list of bytes. The table is lent, and so not built anew for each byte.
pub fn crc(s: &[u8]) -> u16
    ensures { result ≡ crc_of s.now }
{
    let t = NIBBLES;
    over(&t, s)
}

// Whether a frame ends in the CRC of the bytes before.
pub fn is_good(s: &[u8]) -> bool
    ensures { result ≡ good_frame s.now }
{
    match s.split_last_chunk() {
        Some((body, end)) => *end == crc(body).to_le_bytes(),
        None => false,
    }
}

// Stores the CRC of the first n bytes after them, low byte first; nothing where it does not fit.
pub fn close(out: &mut [u8], n: usize)
    ensures { out.new ≡ closed_at out.old n }
{
    if (out.len() < 2) || (out.len() - 2 < n) {
        return;
    }
    let [low, high] = crc(&out[..n]).to_le_bytes();
    out[n] = low;
    out[n + 1] = high;
}
