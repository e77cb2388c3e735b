// The paths that words are, for commands over several files.

ghost use Rattle.std.specs.Prelude.{◌≡◌, ◌++◌, ◌∷◌, [], map, IfOk, OnOk};
ghost use Rattle.std.specs.String.{string_bytes};

use std::alloc::Global;
use tw_base::{NoMemory, Sequence};
use tw_text::FilePath;

/// The first path, and these behind it.
pub(crate) fn paths_of(
    alloc: Global,
    first: &str,
    more: &[String],
) -> Result<Sequence<FilePath>, NoMemory>
    ensures { IfOk result (λ paths. paths ≡ first.now ∷ map string_bytes more.now) }
{
    let mut paths = Sequence::new(alloc);
    push_path(alloc, &mut paths, first)?;
    push_paths(alloc, &mut paths, more)?;
    Ok(paths)
}

/// Puts the word as a path at the end.
pub(crate) fn push_path(
    alloc: Global,
    paths: &mut Sequence<FilePath>,
    word: &str,
) -> Result<(), NoMemory>
    ensures { OnOk result (paths.new ≡ paths.old ++ word.now ∷ []) }
{
    paths.push(FilePath::new(alloc, word)?)
}

/// Puts the words as paths at the end.
pub(crate) fn push_paths(
    alloc: Global,
    paths: &mut Sequence<FilePath>,
    words: &[String],
) -> Result<(), NoMemory>
    ensures { OnOk result (paths.new ≡ paths.old ++ map string_bytes words.now) }
{
    for word in words {
        push_path(alloc, paths, word.as_str())?;
    }
    Ok(())
}
