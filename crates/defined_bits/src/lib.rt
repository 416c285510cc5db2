// Whether the registers hold defined bits only.
#![tactic(auto)]

ghost use Rattle.std.specs.Prelude.{◌≡◌};
ghost use Rattle.defined_bits.specs.Defined.{defined_only};

use registers::Registers;

// Whether every undefined bit is 0.
pub fn is_defined(r: Registers) -> bool
    ensures { result ≡ defined_only r }
{
    let s = r.to_bytes();
    let masks = register_table::MASKS;
    let mut defined = true;
    for (byte, mask) in s.iter().zip(&masks) {
        defined = defined & (byte & mask == *byte);
    }
    defined
}
