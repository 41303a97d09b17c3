//! The files with tables of their statics.
ghost use Rattle.std.specs.Prelude.{◌≡◌, map, All, IfOk};
ghost use Rattle.c_units.specs.Views.{file_of, tree_of, HasTable};

use crate::files::SourceFile;
use crate::names::Names;
use crate::statics::statics_of;
use std::alloc::Global;
use word_base::NoMemory;

/// A file, and the names of its statics.
#[derive(Drop)]
pub(crate) struct NamedFile<'a> {
    pub(crate) file: &'a SourceFile,
    pub(crate) statics: Names<'a>,
}

/// The files, each with its statics.
pub(crate) fn with_statics(
    alloc: Global,
    files: &[SourceFile],
) -> Result<Vec<NamedFile<'_>>, NoMemory>
    ensures files { IfOk result (λ named. map tree_of named.items ≡ map file_of files.now) }
    ensures tables { IfOk result (λ named. All HasTable named.items) }
{
    let mut named = Vec::new(alloc);
    for file in files {
        named.push(NamedFile {
            file,
            statics: statics_of(alloc, &file.unit)?,
        })?;
    }
    Ok(named)
}
