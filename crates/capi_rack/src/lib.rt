// Racks of tags for programs in C and Rust: functions over numbers and lent bytes. docs/LIBRARY.md says what a caller owes.
#![tactic(auto)]

ghost use Rattle.std.specs.Prelude.{◌≡◌};
ghost use Rattle.parts.specs.Pick.{pick};
ghost use Rattle.refusals.specs.Call.{handed_in};
ghost use Rattle.rack.specs.Rack.{rack_call};
ghost use Rattle.rack.specs.Step.{numbers_from};
ghost use Rattle.capi.specs.Interface.{call_result};
ghost use Rattle.capi_rack.specs.RackInterface.{mask_of, search_number, rack_call_result, rack_step_call, rack_search_call};

use refusals::Refusal;

// What a step gives.
#[repr(C)]
#[derive(Clone, Copy)]
pub struct RackNumbers {
    pub answer: u32,
    // A bit for each tag that answered, bit i for tag i.
    pub answered: u32,
}

fn bit_if(on: bool, bit: u32) -> u32
    ensures { result ≡ pick on bit 0 }
{
    if on { bit } else { 0 }
}

fn mask(answered: [bool; 16]) -> u32
    ensures { result ≡ mask_of (numbers_from 0 answered) }
{
    let mut mask = 0;
    let mut bit = 1;
    for i in 0..16 {
        mask += bit_if(answered[i], bit);
        bit *= 2;
    }
    mask
}

fn search_number(answer: Result<Option<u8>, Refusal>) -> u32
    ensures { result ≡ search_number answer }
{
    match answer {
        Err(r) => r.number() as u32,
        Ok(None) => 0x100,
        Ok(Some(k)) => 0x400 + k as u32,
    }
}

// ---- the functions for C, which `capi_rack_c` exports
// One call: the states' bytes, the memories, the reply buffer, the number of tags and that of the tag that is meant, a signal's code and value, and a frame.
// After a refusal the tags are as before, and so are the bytes of their states.
pub fn st25dv_rack_step(
    s: &mut [u8],
    m: &mut [u8],
    out: &mut [u8],
    number: u32,
    to: u32,
    code: u32,
    value: u32,
    frame: &[u8],
) -> RackNumbers
    ensures { rack_call_result result.answer result.answered s.new m.new out.new ≡ rack_step_call number s.old m.old (rack_call (handed_in out.old code value frame.now) to) }
{
    match library_rack_refusals::rack_bytes_refusal(s, m, out, number, code, value) {
        Err(why) => RackNumbers {
            answer: why.number() as u32,
            answered: 0,
        },
        Ok(()) => {
            let tags = rack_states::decode_tags(s);
            let n = number as usize;
            let o = rack_model::step(tags, n, m, out, code, value, frame, to as usize);
            let left = o.tags;
            rack_states::encode_tags(left, s);
            let answer = o.answer;
            let answered = o.answered;
            RackNumbers {
                answer: capi::answer_number(answer),
                answered: mask(answered),
            }
        }
    }
}

// The installer's search: the same buffers, the number of tags, and a frame.
pub fn st25dv_rack_search(
    s: &mut [u8],
    m: &mut [u8],
    out: &mut [u8],
    number: u32,
    frame: &[u8],
) -> u32
    ensures { call_result result s.new m.new out.new ≡ rack_search_call number s.old m.old out.old frame.now }
{
    match library_rack_refusals::rack_bytes_refusal(s, m, out, number, 8, 0) {
        Err(why) => why.number() as u32,
        Ok(()) => {
            let o = collision_search::search(
                rack_states::decode_tags(s),
                number as usize,
                m,
                out,
                frame,
            );
            let left = o.tags;
            rack_states::encode_tags(left, s);
            search_number(o.answer)
        }
    }
}
