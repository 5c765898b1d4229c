// What a call answers: refusals, counts and answers, and what the tests of a call ask. Document 01, "Turned-down calls", decides;
// specs/Outcome.antt has the outcome of a call by the list of its tests.
#![tactic(auto)]

ghost use Rattle.std.specs.Prelude.{◌≡◌};
ghost use Rattle.outcomes.specs.Outcome;

pub mod asked;
pub mod order;

pub use order::Order;

// Why a call is refused. Document 01 numbers them 1 to 7, in this order.
#[derive(Clone, Copy, Debug, PartialEq, Eq)]
pub enum Refusal {
    Order,
    Key,
    Input,
    Output,
    Tape,
    List,
    Place,
}

impl Refusal {
    // Document 01's number of a refusal.
    pub fn number(self) -> u32
        ensures { result ≡ Outcome.number self }
    {
        match self {
            Refusal::Order => 1,
            Refusal::Key => 2,
            Refusal::Input => 3,
            Refusal::Output => 4,
            Refusal::Tape => 5,
            Refusal::List => 6,
            Refusal::Place => 7,
        }
    }
}

// What a completed call counts.
#[derive(Clone, Copy, Debug, PartialEq, Eq)]
pub struct Count {
    pub taken: usize, // tape bytes
}

// A completed call answers with what it counted, a refused one with its refusal.
pub type Answer = Result<Count, Refusal>;
