// An answer as C gets it: a status, and the count behind a pointer.
ghost use Rattle.std.specs.Prelude.{◌≡◌, ℕ, List};
ghost use Rattle.outcomes.specs.Outcome as Outcome;
ghost use Rattle.dokkumel_c.specs.Returned as Returned;

use outcomes::Answer;

// 0 and the count where the call was carried through; else the refusal's number, and taken stays.
pub fn returned(answer: Answer, taken: &mut usize) -> u32
    ensures { (q : List ℕ)
        → Returned.gives result taken.new q ≡ Returned.returned (Outcome.outcome answer q) taken.old }
{
    match answer {
        Ok(k) => {
            *taken = k.taken;
            0
        }
        Err(r) => r.number(),
    }
}
