// The rounds of an encryption or decryption from round keys in shares. The keys have m bytes in each share.
ghost use Rattle.std.specs.Prelude.{◌≡◌, suc, ◌+◌, ◌*◌};
ghost use Rattle.tape_words.specs.Words.{bytes_of};
ghost use Rattle.shares.specs.Strings.{parts, laid};
ghost use Rattle.cipher.specs.Fips197.{rounds};
ghost use Rattle.cipher.specs.Cipher.{round_need, encrypted_with_need};
ghost use Rattle.cipher.specs.Rounds.{rounds_of};
ghost use Rattle.rounds.specs.Fits.{RoundsFit, KeyedFits};
ghost use Rattle.rounds.specs.Directions.{with_of};

use gf256::{Direction, Tables};
use outcomes::Order;

// The nr rounds. Answers with how many words were drawn.
fn run_rounds(
    tables: &Tables,
    which: Direction,
    nr: usize,
    d: Order,
    m: usize,
    keys: &[u8],
    tape: &[u32],
    s: &mut [u8],
) -> usize
    requires { RoundsFit d m nr keys.now (bytes_of tape.now) s.old }
    ensures { (4 * result ≡ nr * round_need d)
        × (s.new
        ≡ laid (rounds_of which nr nr 1 d (parts (suc d) m keys.now) (parts (suc d) 16 s.old)
        (bytes_of tape.now))) }
{
    // Kept: each round gets the tape from its own draw on, and the count rises with each (document 01); i is the round's number.
    let mut at: usize = 0;
    for i in 1..nr + 1 {
        let r = crate::round::key_number(which, nr, i);
        at += crate::round::make_round(tables, which, i == nr, d, m, r, keys, &tape[at..], s);
    }
    at
}

// A block from round keys, share after share: the first round key, and then the rounds, on the state in output. Answers with how many words
// were drawn.
pub fn rounds_core(
    tables: &Tables,
    which: Direction,
    nk: usize,
    d: Order,
    keys: &[u8],
    input: &[u8],
    tape: &[u32],
    output: &mut [u8],
) -> usize
    requires { KeyedFits nk d keys.now input.now (bytes_of tape.now) output.old }
    ensures { (4 * result ≡ encrypted_with_need nk d)
        × (output.new
        ≡ laid (with_of which nk d (parts (suc d) (16 * suc (rounds nk)) keys.now)
        (parts (suc d) 16 input.now) (bytes_of tape.now))) }
{
    let nr = nk + 6;
    let m = 16 * (nr + 1);
    let first = crate::round::key_number(which, nr, 0);
    shares::bytes::put(input, output);
    linear::steps::add_key(d, m, first, keys, output);
    run_rounds(tables, which, nr, d, m, keys, tape, output)
}
