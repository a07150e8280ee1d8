//! What each word step tells the pass that does it, and how passes are cut and joined.

use crate::rule::{Listed, View};
use atomic_table::{Join, Play, Split};
use ordered_fold::Front;
use std::marker::PhantomData;

pub(crate) struct Claims<L>(PhantomData<L>);

impl<L: Listed> Play<Option<Front>, View> for Claims<L> {
    ghost use Rattle.claim_table.specs.Steps.{Claimed};

    ghost then = { λ _ me n after. Claimed L.lists me n after };
}

pub(crate) struct Reports<L>(PhantomData<L>);

impl<L: Listed> Play<Option<Front>, View> for Reports<L> {
    ghost use Rattle.claim_table.specs.Steps.{Reported};

    ghost then = { λ _ me n after. Reported L.lists me n after };
}

pub(crate) struct Tries<L>(PhantomData<L>);

impl<L: Listed> Play<Option<Front>, View> for Tries<L> {
    ghost use Rattle.claim_table.specs.Steps.{Tried};

    ghost then = { λ _ me n after. Tried L.lists me n after };
}

pub(crate) struct Glances<L>(PhantomData<L>);

impl<L: Listed> Play<Option<Front>, View> for Glances<L> {
    ghost use Rattle.claim_table.specs.Steps.{Glanced};

    ghost then = { λ _ me n after. Glanced L.lists me n after };
}

pub(crate) struct Announces<L>(PhantomData<L>);

impl<L: Listed> Play<Option<Front>, View> for Announces<L> {
    ghost use Rattle.claim_table.specs.Steps.{Announced};

    ghost then = { λ _ me n after. Announced L.lists me n after };
}

pub(crate) struct Releases;

impl Play<Option<Front>, View> for Releases {
    ghost use Rattle.claim_table.specs.Steps.{Released};

    ghost then = { λ _ me n after. Released me n after };
}

pub(crate) struct Looks<L>(PhantomData<L>);

impl<L: Listed> Play<Option<Front>, View> for Looks<L> {
    ghost use Rattle.claim_table.specs.Steps.{Looked};

    ghost then = { λ _ me n after. Looked L.lists me n after };
}

pub(crate) struct Splits;

impl Split<View> for Splits {
    ghost use Rattle.claim_table.specs.Steps.{parent_view, child_view};

    ghost left = { parent_view };

    ghost right = { child_view };
}

pub(crate) struct Joins;

impl Join<View> for Joins {
    ghost use Rattle.claim_table.specs.Steps.{joined_view, spent_view};

    ghost both = { joined_view };

    ghost spent = { spent_view };
}
