ghost use Rattle.std.specs.Prelude.{◌≡◌};
ghost use Rattle.live_points.specs.Kinds.{AreKinds};

use live_points::{Kinds, Records};

/// The same kinds once more.
fn kinds_copied(kinds: &Kinds) -> Kinds
    ensures value { result ≡ kinds.now }
    ensures kinds { AreKinds kinds.now }
{
    let list = kinds.as_slice();
    let mut copied = Kinds::one(list[0]);
    for k in 1..list.len() {
        copied.add(list[k]);
    }
    copied
}

/// The same records once more.
pub fn copied(records: &Records) -> Records
    ensures value { result ≡ records.now }
    ensures kinds { AreKinds records.now.kinds }
{
    Records {
        places: records.places.copied(),
        kinds: kinds_copied(&records.kinds),
    }
}
