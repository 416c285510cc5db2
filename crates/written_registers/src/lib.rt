// The registers that a leg writes.
#![tactic(auto)]

ghost use Rattle.std.specs.Prelude.{◌≡◌, ◌+◌};
ghost use Rattle.registers.specs.Map.{written};
ghost use Rattle.tag.specs.Layout.{page};
ghost use Rattle.written_registers.specs.Written.{written_all};

use registers::Registers;

// A byte written at an address that may lie past the last one.
#[tactic(auto, unfolding(registers::specs::Map::written))]
fn write_at(r: Registers, first: u16, i: u16, x: u8) -> Registers
    ensures { result ≡ written r (first + i) x }
{
    let row = register_table::row_of(first as u32 + i as u32);
    r.write_to(row.place, x)
}

// The registers with the page's k bytes taken as written from the first address on.
pub fn written_all(r: Registers, m: &[u8], first: u16, k: u16) -> Registers
    ensures { result ≡ written_all r first (page k m.now) }
{
    let mut n = r;
    for i in 0..k {
        let x = parts::byte_in(m, tag::PAGE_AT, i as usize);
        n = write_at(n, first, i, x);
    }
    n
}
