// The order of a masking: how many masks a byte has. Its shares are one more. A call is served at 1 to 8, and the steps take 0 too: there a byte is
// its only share. Document 01, "Turned-down calls", decides which orders are served.
ghost use Rattle.std.specs.Prelude.{◌≡◌, suc, ◌≤◌};
ghost use Rattle.outcomes.specs.Outcome;

use crate::Refusal;
use std::marker::Model;

// At most 8, so that every step may count on it. In a clause it is its number.
#[derive(Clone, Copy)]
pub struct Order {
    masks: usize,
}

impl Model for Order {
    ghost use Rattle.std.specs.Prelude.{ℕ, ◌≤◌};

    ghost Value = { ℕ };

    ghost view = { λ o. o.masks };

    ghost inverse = { λ d. record { masks = d } };

    ghost invariant = { λ o. o.masks ≤ 8 };
}

impl Order {
    // Of that many masks.
    pub fn new(masks: usize) -> Self
        requires { masks ≤ 8 }
        ensures { result ≡ masks }
    {
        Order { masks }
    }

    // An order that is served, from the raw number, which is tested before order + 1 is formed.
    pub fn served(order: usize) -> Result<Order, Refusal>
        ensures { result ≡ Outcome.order_served order }
    {
        if !crate::asked::served(order) {
            return Err(Refusal::Order);
        }
        Ok(Order::new(order))
    }

    // Its number: how many masks a byte has.
    pub fn number(self) -> usize
        ensures { (result ≡ self) × (result ≤ 8) }
    {
        self.masks
    }

    // How many shares a byte has.
    pub fn shares(self) -> usize
        ensures { (result ≡ suc self) × (result ≤ 9) }
    {
        self.number() + 1
    }
}
