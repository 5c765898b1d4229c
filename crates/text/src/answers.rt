// Answers of the library, in document 01's numbers and words: what came of a call, and what is printed of one that was carried through.
ghost use Rattle.std.specs.Prelude.{◌≡◌, ◌≤◌};
ghost use Rattle.text.specs.Answers as Answers;

use crate::hexadecimal;
use outcomes::{Answer, Count, Refusal};
use std::fmt;

// Whose causes are told, where their words differ: document 02 puts the lengths of prepared keys into cause 2, and the cube's number of places into
// cause 7.
#[derive(Clone, Copy)]
pub enum Table {
    Document01,
    PreparedKeys,
    Cube,
}

// A refusal, as a table words it.
#[derive(Clone, Copy)]
pub struct Cause {
    pub refusal: Refusal,
    pub table: Table,
}

impl From<Refusal> for Cause {
    fn from(refusal: Refusal) -> Self {
        Cause {
            refusal,
            table: Table::Document01,
        }
    }
}

// Its whole line, in one text: so it is one write, and whole on a pipe that several processes share.
impl fmt::Display for Cause {
    fn fmt<W: fmt::Write>(&self, f: &mut fmt::Formatter<W>) -> fmt::Result {
        f.write_str(match (self.refusal, self.table) {
            (Refusal::Order, _) => "refused 1: order is 0 or above 8\n",
            (Refusal::Key, Table::PreparedKeys) => {
                "refused 2: prepared length isn't n·176, n·208 or n·240\n"
            }
            (Refusal::Key, _) => { "refused 2: key share length isn't n·16, n·24 or n·32\n" }
            (Refusal::Input, _) => "refused 3: an input's length doesn't fit\n",
            (Refusal::Output, _) => "refused 4: output length isn't the one required\n",
            (Refusal::Tape, _) => "refused 5: tape shorter than the call needs\n",
            (Refusal::List, _) => "refused 6: place list longer than d\n",
            (Refusal::Place, Table::Cube) => {
                "refused 7: some listed place number isn't below the cube's number of places\n"
            }
            (Refusal::Place, _) => { "refused 7: some listed place number isn't below P(d)\n" }
        })
    }
}

// What a call counted, or the cause of its refusal.
pub fn counted(a: Answer, table: Table) -> Result<Count, Cause>
    ensures { result ≡ Answers.counted a table }
{
    a.map_err(|refusal| Cause { refusal, table })
}

pub fn print_taken(count: Count) {
    crate::print_with(b"taken ", count.taken);
    crate::print(b"\n");
}

// A call on an output of n bytes: prints what it put out and counted, or hands on the cause of its refusal.
pub fn print_call<F: FnOnce(&mut [u8]) -> Answer>(
    n: usize,
    table: Table,
    call: F,
) -> Result<(), Cause>
    requires room { n ≤ 4096 }
    requires callable { F.IsAlwaysCallable call }
{
    let mut room = io::buffer();
    let output = &mut room[..n];
    let count = counted(call(output), table)?;
    crate::print(b"output ");
    hexadecimal::print(output);
    crate::print(b"\n");
    print_taken(count);
    Ok(())
}
