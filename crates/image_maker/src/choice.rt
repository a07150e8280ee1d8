ghost use Rattle.std.specs.Prelude.{◌≡◌};
ghost use Rattle.image_maker.specs.Choice.{state_behind, choice_from, IsChoice};

use smarts_base::Draws;

/// What a group of instructions does.
#[derive(Clone, Copy, Debug, PartialEq, Eq)]
pub enum Kind {
    /// Arithmetic, with a product at its end.
    Mix,
    Load,
    Store,
    /// A branch that depends on data.
    Branch,
}

/// What is drawn for a group.
#[derive(Clone, Copy, Debug, PartialEq, Eq)]
pub struct Choice {
    pub kind: Kind,
    /// The registers that the group works on, each from 10 to 15.
    pub first: u8,
    pub second: u8,
    /// A distance in words, or what is added, from 1 to 500.
    pub amount: i32,
}

/// Draws a group: kind, registers and amount, in this order.
#[tactic(auto, unfolding(crate::specs::Choice::state_behind, crate::specs::Choice::choice_from))]
pub fn choose(draws: &mut Draws) -> Choice
    ensures state { draws.new.state ≡ state_behind draws.old.state 4 }
    ensures value { result ≡ choice_from draws.old.state }
    ensures ranges { IsChoice result }
{
    let kind = match draws.draw() % 4 {
        0 => Kind::Mix,
        1 => Kind::Load,
        2 => Kind::Store,
        _ => Kind::Branch,
    };
    let first = 10 + (draws.draw() % 6) as u8;
    let second = 10 + (draws.draw() % 6) as u8;
    let amount = 1 + (draws.draw() % 500) as i32;
    Choice {
        kind,
        first,
        second,
        amount,
    }
}
