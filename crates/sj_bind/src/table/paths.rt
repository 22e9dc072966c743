//! The nested paths of a table.

ghost use Rattle.std.specs.Prelude.{◌≡◌, ◌<◌, length, IfSome};
ghost use Rattle.sj_bind.specs.FlatView.{flat_path_of, paths_at};
ghost use Rattle.sj_bind.specs.Plans as spec;

use crate::flat::FlatPath;
use sj_base::Text;

/// Whether the path stands right under the path of this number, or is the row path where there is none.
pub fn is_under(path: &FlatPath, parent: Option<usize>) -> bool
    ensures { result ≡ spec.is_under parent (flat_path_of path.now) }
{
    match (parent, path.parent) {
        (None, None) => true,
        (Some(parent), Some(own)) => parent == own,
        _ => false,
    }
}

fn is_called(own: &Option<Text>, name: &str) -> bool
    ensures { result ≡ spec.is_name name.now own.now }
{
    match own {
        Some(own) => own.as_str() == name,
        None => false,
    }
}

/// Whether paths are nested in the path of this number.
pub fn has_nested(paths: &[FlatPath], parent: Option<usize>) -> bool
    ensures { result ≡ spec.has_nested (paths_at paths.now) parent }
{
    for path in paths {
        if is_under(path, parent) {
            return true;
        }
    }
    false
}

/// The number of the path of this name right under a parent.
pub fn find_path(paths: &[FlatPath], parent: Option<usize>, name: &str) -> Option<usize>
    ensures found { result ≡ spec.path_named (paths_at paths.now) parent name.now }
    ensures within { IfSome result (λ number. number < length paths.now) }
{
    for (number, path) in paths.iter().enumerate() {
        if is_under(path, parent) && is_called(&path.name, name) {
            return Some(number);
        }
    }
    None
}
