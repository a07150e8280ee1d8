ghost use Rattle.std.specs.Prelude.{◌≡◌};

use live_points::{Header, Kinds, Records};

fn kinds_copied(kinds: &Kinds) -> Kinds
    ensures { result ≡ kinds.now }
{
    let list = kinds.as_slice();
    let mut copied = Kinds::one(list[0]);
    for k in 1..list.len() {
        copied.add(list[k]);
    }
    copied
}

/// The same header once more, for those who keep it while more is read.
pub fn copied(header: &Header) -> Header
    ensures { result ≡ header.now }
{
    Header {
        version: header.version,
        length: header.length,
        points: header.points,
        design: header.design,
        heap_low: header.heap_low,
        records: Records {
            places: header.records.places.copied(),
            kinds: kinds_copied(&header.records.kinds),
        },
    }
}
