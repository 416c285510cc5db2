// What goes from line to line of a rack's script beside the memory: its start, and a tag added.
#![tactic(auto)]

ghost use Rattle.std.specs.Prelude.{◌≡◌, ◌≤◌, take};
ghost use Rattle.rack.specs.Rack.{memory_sizes};
ghost use Rattle.rack_start.specs.Start.{rack_start, takes_tag, rack_added, added_tag};

use keys::Uid;
use tag::Tag;

// What goes from line to line beside the memory.
#[derive(Clone, Copy)]
pub struct RackBench {
    // The rack is the first `count` of them.
    pub tags: [Tag; 16],
    pub count: usize,
    // The number of the tag that is named.
    pub to: u8,
    // A good line came that added no tag: no more are added.
    pub begun: bool,
    // Lines before the next one.
    pub number: u64,
}

// No tag, before line 1.
#[tactic(auto, unfolding(crate::specs::Start::rack_start))]
pub fn start() -> RackBench
    ensures { result ≡ rack_start }
{
    let none = Tag::fresh(Uid { bytes: [0; 8] });
    RackBench {
        tags: [none; 16],
        count: 0,
        to: 0,
        begun: false,
        number: 0,
    }
}

// Whether a tag can be added.
#[tactic(auto, unfolding(crate::specs::Start::takes_tag))]
pub fn takes_tag(bench: RackBench) -> bool
    ensures { result ≡ takes_tag bench }
{
    !bench.begun & (bench.count < 16)
}

// Adds a fresh tag where one can be; its memory is cleared.
pub fn add(bench: RackBench, m: &mut [u8; 16384], uid: Uid) -> RackBench
    ensures { rack_added result m.new ≡ added_tag uid bench m.old }
{
    if !takes_tag(bench) {
        return bench;
    }
    let i = bench.count;
    let zeros = [0u8; 1024];
    parts::put_bytes(m, tag::MEMORY_BYTES * i, &zeros, 0, tag::MEMORY_BYTES);
    // In place: an update of the struct would copy all sixteen tags once more.
    let mut n = bench;
    n.tags[i] = Tag::fresh(uid);
    n.count = i + 1;
    n
}

// How many bytes the tags' memories have together.
pub fn memory_length(bench: RackBench) -> usize
    ensures value { result ≡ memory_sizes (take bench.count bench.tags) }
    ensures upper_bound { result ≤ 16384 }
{
    tag::MEMORY_BYTES * bench.count.min(16)
}
