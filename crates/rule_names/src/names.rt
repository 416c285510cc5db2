// The names of rules by number, all in one table.
ghost use Rattle.std.specs.Prelude.{◌≡◌};
ghost use Rattle.parts.specs.Bytes.{bytes_at};
ghost use Rattle.text.specs.Place.{stored, text_at};
ghost use Rattle.rule_names.specs.Names.{name_at};

const COUNT: usize = 55;

// The names end to end, where each starts, and how long it is; number 0 has none.
const NAMES: [u8; 584] =
    *b"leg spoiledoutside the mapmailbox mode onmode offmailbox busymailbox leg not from 2008hanother arealocked blockarea never writableconfiguration lockedsession neededregister read onlypassword codeENDA rulepage fullno VCCno Startread legother select byteprogrammingfield offRF_MNGT_Dyn b1under 4 or over 270 bytesbad CRCinventory flagboth select and address02h missing or otherUID short or, except in Select, otherselect flag when not Selectedneither flag when QuietSelect or Stay Quiet not addressedown silenceshut out01h03h02h10h0Fh15h0Fh0Fh-212h10h11h10h12h0Fh10h0Fh0Fh0Fh-210h0Fh12h";

const STARTS: [usize; COUNT] = [
    0, 0, 11, 26, 41, 49, 61, 87, 99, 111, 130, 150, 164, 182, 195, 204, 213, 219, 227, 235, 252,
    263, 272, 286, 311, 318, 332, 355, 375, 412, 441, 464, 498, 509, 517, 520, 523, 526, 529, 532,
    535, 538, 543, 546, 549, 552, 555, 558, 561, 564, 567, 570, 575, 578, 581,
];

const LENGTHS: [usize; COUNT] = [
    0, 11, 15, 15, 8, 12, 26, 12, 12, 19, 20, 14, 18, 13, 9, 9, 6, 8, 8, 17, 11, 9, 14, 25, 7, 14,
    23, 20, 37, 29, 23, 34, 11, 8, 3, 3, 3, 3, 3, 3, 3, 5, 3, 3, 3, 3, 3, 3, 3, 3, 3, 5, 3, 3, 3,
];

// Stores a part of a text at a place.
pub fn put_part(text: &mut [u8], at: usize, s: &[u8], from: usize, n: usize) -> usize
    ensures { stored result text.new ≡ text_at text.old at (bytes_at s.now from n) }
{
    parts::put_bytes(text, at, s, from, n);
    text::after(at, n)
}

// Stores the name of a number at a place; 0 and a number past the last have none.
pub fn put_name(text: &mut [u8], at: usize, n: u8) -> usize
    ensures { stored result text.new ≡ text_at text.old at (name_at n) }
{
    let i = n as usize;
    if COUNT <= i {
        return at;
    }
    let starts = STARTS;
    let lengths = LENGTHS;
    let names = NAMES;
    let from = starts[i];
    let length = lengths[i];
    put_part(text, at, &names, from, length)
}
