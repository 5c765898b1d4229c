// Unused tape, for C, which has no slices to hand back: where it starts.
ghost use Rattle.std.specs.Prelude.{◌≡◌};
ghost use Rattle.dokkumel_c.specs.Returned.{unused_start};

// The tape from there on is the slice that unused_tape hands back: count, or the tape's length if count exceeds it.
#[unsafe(no_mangle)]
pub extern "C" fn dokkumel_unused_tape(tape: &[u32], count: usize) -> usize
    ensures { result ≡ unused_start tape.now count }
{
    let rest = shares::unused_tape(tape, count);
    tape.len() - rest.len()
}
