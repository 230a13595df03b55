//! Modules that were stored, read again.

ghost use Rattle.std.specs.Prelude.{IfOk, option_map};
ghost use Rattle.std.specs.Vec.{vec_items};
ghost use Rattle.ash_image.specs.SnapshotViews.{module_of, modules_of};
ghost use Rattle.ash_states.specs.StateRestoring.{ReadsModule, ReadsModules};

use ash_image::stored::StoredModule;
use ash_plain_steps::state::LoadedModule;
use ash_requests::sources::SourceReader;
use std::alloc::{AllocError, Global};

/// A module that was stored, with the typed tree of its source, where it has one.
fn read_module<S: SourceReader>(
    alloc: Global,
    sources: &S,
    stored: StoredModule,
) -> Result<Option<LoadedModule>, AllocError>
    ensures exact { IfOk result (ReadsModule (S.embedding sources.now) (module_of stored)) }
{
    let Ok(tree) = sources.read(alloc, &stored.source)? else {
        return Ok(None);
    };
    let StoredModule {
        name,
        source,
        globals,
    } = stored;
    Ok(Some(LoadedModule {
        name,
        source,
        tree,
        globals,
    }))
}

/// The modules that were stored, each with the typed tree of its source, where each has one.
pub(crate) fn read_modules<S: SourceReader>(
    alloc: Global,
    sources: &S,
    stored: Vec<StoredModule>,
) -> Result<Option<Vec<LoadedModule>>, AllocError>
    ensures exact { IfOk result (λ found. ReadsModules (S.embedding sources.now)
        (modules_of stored.items) (option_map vec_items found)) }
{
    let mut modules = Vec::with_capacity(alloc, stored.len())?;
    for module in stored {
        let Some(module) = read_module(alloc, sources, module)? else {
            return Ok(None);
        };
        modules.push(module)?;
    }
    Ok(Some(modules))
}
