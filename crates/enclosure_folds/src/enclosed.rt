//! What is shown of a groupby.

ghost use Rattle.std.specs.Prelude.{◌≡◌, IfOk};
ghost use Rattle.enclosure_folds.specs.Shown.{MayBeShown, shown};

use crate::bounds::bounds_of;
use crate::table::Enclosed;
use final_queries::{Table, TableKind};
use query_lang::Class;
use std::alloc::{AllocError, Global};

/// What is shown of a groupby, by its table: that of a linear fold unchanged, and a table of bounds instead of one that
/// has three states side by side for each epoch.
pub fn enclosed_of(alloc: Global, table: Table) -> Result<Enclosed, AllocError>
    requires { MayBeShown table }
    ensures { IfOk result (λ made. made ≡ shown table) }
{
    match table.kind {
        TableKind::Group(Class::Other, _, _) => {
            let bounds = bounds_of(alloc, &table)?;
            Ok(Enclosed::Bounds(bounds))
        }
        _ => Ok(Enclosed::Linear(table)),
    }
}
