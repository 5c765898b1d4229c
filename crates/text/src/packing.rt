// Words of 32 bits out of bytes, four each, the lowest first: so document 02, wish 6, reads a tape.
ghost use Rattle.std.specs.Prelude.{◌≡◌, ◌*◌, length};
ghost use Rattle.text.specs.Packing as Packing;

// Four bytes as one word.
#[tactic(auto, unfolding(crate::specs::Packing::word))]
pub fn word(a: u8, b: u8, c: u8, d: u8) -> u32
    ensures { result ≡ Packing.word a b c d }
{
    u32::from_le_bytes([a, b, c, d])
}

// The words of bytes, of which there are four for each.
// Kept: places in bytes by number. Over a zip with chunks of them, out is the iterator's, and no invariant can say what it holds so far.
pub fn pack(bytes: &[u8], out: &mut [u32])
    requires { length bytes.now ≡ length out.old * 4 }
    ensures { out.new ≡ Packing.packed bytes.now (length out.old) }
{
    for (k, w) in out.iter_mut().enumerate() {
        let i = k * 4;
        *w = word(bytes[i], bytes[i + 1], bytes[i + 2], bytes[i + 3]);
    }
}
