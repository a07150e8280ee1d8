ghost use Rattle.std.specs.Prelude.{IfOk};
ghost use Rattle.livepoint_format.specs.Migrating.{IsMigrated, Migrations};

use crate::counting::sharing;
use crate::library::Library;
use smarts_base::NoMemory;
use std::alloc::Global;

/// The same library in version 2, with the pairs that its points share for its table. After want of memory the
/// library is given up.
pub fn migrate(alloc: Global, library: Library) -> Result<Library, NoMemory>
    ensures { IfOk result (λ new. IsMigrated library new) }
{
    let shared = sharing(alloc, library.points())?;
    Ok(library.with_table(shared))
}

/// A library becomes one of the grammar, and once more changes nothing.
pub fn migration_laws()
    ensures { Migrations }
{}
