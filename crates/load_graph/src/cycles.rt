//! The line of a load cycle.
ghost use Rattle.std.specs.Prelude.{◌≡◌, length};
ghost use Rattle.load_graph.specs.Paths.{leads_back, line_back};

use crate::paths::Paths;
use components::Components;
use loading::LoadStatement;

/// Whether a load statement names a module of the component of this number.
fn leads_back(paths: &Paths, components: &Components, own: usize, load: &LoadStatement) -> bool
    requires size { length components.now.deps ≡ length paths.now }
    ensures { result ≡ leads_back paths.now components.now.numbers own load.now.target }
{
    match paths.loaded(load) {
        Some(n) => components.number(n) == own,
        None => false,
    }
}

/// The line of the first load statement that names a module of the component of this number, if
/// there is one.
pub fn cycle_line(
    paths: &Paths,
    components: &Components,
    own: usize,
    loads: &[LoadStatement],
) -> Option<u64>
    requires size { length components.now.deps ≡ length paths.now }
    ensures { result ≡ line_back paths.now components.now.numbers own loads.now }
{
    for load in loads {
        if leads_back(paths, components, own, load) {
            return Some(load.line());
        }
    }
    None
}
