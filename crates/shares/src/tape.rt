// Unused tape, handed back to the caller.
ghost use Rattle.std.specs.Prelude.{◌≡◌};
ghost use Rattle.shares.specs.Calls.{unused};

// The caller's own slice from word count to its end, or the empty end part if count exceeds its length.
pub fn unused_tape(tape: &[u32], count: usize) -> &[u32]
    ensures { result.now ≡ unused tape.now count }
{
    if count <= tape.len() {
        &tape[count..]
    } else {
        &tape[tape.len()..]
    }
}
