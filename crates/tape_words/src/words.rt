// Words of a tape, unpacked into the bytes that the steps draw; and how many words hold so many bytes.
ghost use Rattle.std.specs.Prelude.{◌≡◌, ◌*◌, ◌≤◌, length, take};
ghost use Rattle.xor.specs.Writes.{front};
ghost use Rattle.tape_words.specs.Words as Words;
ghost use Rattle.tape_words.specs.Words.{bytes_of};

// How many words hold so many bytes. It is worked out so that no number of bytes is too large.
pub fn words_for(bytes: usize) -> usize
    ensures { result ≡ Words.words_for bytes }
{
    bytes / 4 + (bytes % 4 + 3) / 4
}

// The words that hold so many bytes, from the front of the tape over the front of room, the lowest byte of each first. The bytes that the need
// leaves of the last word come along, and nobody draws them.
// Kept: each routine calls it in a function of its own, `.._on_words`. One function over the routine's core would state that core's contract once
// more, for its closure.
pub fn unpack(need: usize, tape: &[u32], room: &mut [u8])
    requires { (Words.words_for need ≤ length tape.now) × (4 * Words.words_for need ≤ length room.old) }
    ensures { room.new ≡ front (take (4 * Words.words_for need) (bytes_of tape.now)) room.old }
{
    let words = &tape[..words_for(need)];
    for (k, word) in words.iter().enumerate() {
        let at = 4 * k;
        room[at..at + 4].copy_from_slice(&word.to_le_bytes());
    }
}
