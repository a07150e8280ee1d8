use atomic_table::{Table, TableRule};
use ordered_fold::{Front, Seat};
use std::alloc::Global;
use std::marker::{Brand, PhantomData};

/// Whoever runs a board picks a list of lists of answers, which contracts alone see: each board reports
/// the answers of one of them.
pub trait Listed {
    ghost use Rattle.std.specs.Prelude.{List};
    ghost use Rattle.confidence.specs.declared.answer.Answer.{Answer};

    ghost lists: { List (List Answer) };
}

impl Listed for Brand {
    ghost use Rattle.std.specs.Prelude.{[]};

    ghost lists = { [] };
}

/// What a board is told when it is made: the place of its answers in the list of lists, and the front
/// that the fold goes on from.
#[derive(Drop)]
pub struct Key {
    pub which: u32,
    pub start: Front,
}

/// One word step of a pass: its number among the pass's, its place in the batch where it has one, and
/// the word that it found. No value of it is made.
pub struct Note {
    pub step: u64,
    pub place: u64,
    pub word: u64,
}

/// What a pass knows. No value of it is made.
pub struct View {
    /// What the machine knows of its seat.
    pub seat: Seat,
    /// How many answers of the batch the front has, while the pass holds it.
    pub held: u32,
    /// How many passes may still be split off it.
    pub spare: u64,
    /// How many passes it is, with those that were joined to it.
    pub merged: u64,
    /// How many numbers of answers it drew.
    pub points: u64,
    pub which: u32,
    pub start: Front,
    /// Whether it announced the end.
    pub announced: bool,
    /// How many word steps it did.
    pub steps: u64,
    /// The last Try, the last Glance and the last Look.
    pub tried: Note,
    pub glanced: Note,
    pub looked: Note,
}

/// What holds of a board between any two word steps.
pub struct Rule<L> {
    of: PhantomData<L>,
}

impl<L: Listed> TableRule<Option<Front>, View, Key> for Rule<L> {
    ghost use Rattle.claim_table.specs.Board.{IsBoard, first_view};

    ghost holds = { IsBoard L.lists };

    ghost first = { first_view };
}

pub(crate) type BoardTable<L> = Table<Option<Front>, View, Key, Rule<L>, Global>;
