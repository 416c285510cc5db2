// What goes from line to line beside the memory: its start, and the line number.
#![tactic(auto)]

ghost use Rattle.std.specs.Prelude.{◌≡◌};
ghost use Rattle.bench_start.specs.Start.{bench_start, bench_start_of, next_line};

use keys::Uid;
use tag::Tag;

// What goes from line to line beside the memory.
#[derive(Clone, Copy)]
pub struct Bench {
    pub tag: Tag,
    // Lines before the next one.
    pub number: u64,
}

// The fresh tag, before line 1.
pub fn start(m: &mut [u8]) -> Bench
    ensures { bench_start result m.new ≡ bench_start_of m.old }
{
    let uid = Uid {
        bytes: [0x01, 0x02, 0x03, 0x04, 0x05, 0x24, 0x02, 0xE0],
    };
    let o = model::fresh(uid, m);
    let tag = o.tag;
    Bench { tag, number: 0 }
}

// The number of the next line.
pub fn next_line(bench: Bench) -> u64
    ensures { result ≡ next_line bench }
{
    bench.number.wrapping_add(1)
}
