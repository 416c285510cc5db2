// A frame from its digits, with its CRC, as the lines of both programs' scripts hand one over.
#![tactic(auto)]

ghost use Rattle.std.specs.Prelude.{◌≡◌, ◌+◌, ◌≤◌, length, take};
ghost use Rattle.std.proofs.lemmas.List.Edits.{sets};
ghost use Rattle.crc.specs.Crc.{closed, closed_at};
ghost use Rattle.hexadecimal.specs.Hex.{hex_bytes};

// Stores a frame with its CRC, from its digits, and gives its length. A line of 1,200 characters has 599 bytes of
// frame, and the CRC two; of more digits what there is room for is stored, and the CRC only where it fits.
pub fn put_frame(s: &[u8], frame: &mut [u8; 602]) -> usize
    ensures value { result ≡ length (hex_bytes s.now) + 2 }
    ensures stored { frame.new ≡ closed_at (sets frame.old 0 (hex_bytes s.now)) (length (hex_bytes s.now)) }
    ensures frame_after { length s.now ≤ 1198 → take result frame.new ≡ closed (hex_bytes s.now) }
    ensures upper_bound { length s.now ≤ 1198 → result ≤ length frame.new }
    ensures frame_after_2 { length s.now ≤ 1198 → frame.new ≡ sets frame.old 0 (closed (hex_bytes s.now)) }
{
    let n = hexadecimal::decode(s, frame);
    crc::close(frame, n);
    n + 2
}
