// A rack's tags in a lent slice: each is taken out, worked on by value and stored.
#![tactic(auto)]

ghost use Rattle.std.specs.Prelude.{◌≡◌, ◌<◌, length};
ghost use Rattle.rack_hear.specs.Hear.{heard_all, hear_one_of, hear_all_of};

use rack_hear::Heard;
use tag::Tag;

// Tag i hears the call.
fn hear_one(
    tags: &mut [Tag],
    memory: &mut [u8],
    out: &mut [u8],
    frame: &[u8],
    i: usize,
    heard: Heard,
) -> Heard
    requires { i < length tags.old }
    ensures { heard_all result tags.new memory.new out.new ≡ hear_one_of tags.old memory.old out.old frame.now i heard }
{
    let o = rack_hear::hear_tag(tags[i], memory, out, frame, i, heard);
    tags[i] = o.tag;
    o.heard
}

// Every tag does, in the order of their numbers.
pub fn hear_all(
    tags: &mut [Tag],
    memory: &mut [u8],
    out: &mut [u8],
    frame: &[u8],
    heard: Heard,
) -> Heard
    ensures { heard_all result tags.new memory.new out.new ≡ hear_all_of (length tags.old) tags.old memory.old out.old frame.now heard }
{
    let mut b = heard;
    for i in 0..tags.len().min(heard.number) {
        b = hear_one(tags, memory, out, frame, i, b);
    }
    b
}

// ---- sixteen tags by value, for code that has no slice of them
// What a call leaves of them.
#[derive(Clone, Copy)]
pub struct HeardRack {
    pub heard: Heard,
    pub tags: [Tag; 16],
}

// They hear the call.
pub fn hear_sixteen(
    tags: [Tag; 16],
    memory: &mut [u8],
    out: &mut [u8],
    frame: &[u8],
    heard: Heard,
) -> HeardRack
    ensures { heard_all result.heard result.tags memory.new out.new ≡ hear_all_of 16 tags memory.old out.old frame.now heard }
{
    let mut lent = tags;
    let heard = hear_all(&mut lent, memory, out, frame, heard);
    HeardRack { heard, tags: lent }
}
