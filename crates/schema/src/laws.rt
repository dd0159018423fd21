// What follows from the derived comparisons, in the subject's own words.
ghost use Rattle.schema.specs.Equal.{path_before, path_order, same_path};
ghost use Rattle.std.specs.Ordering.{partial_lt};
ghost use Rattle.std.specs.Prelude.{◌≡◌, Some, Decides};

use crate::path::Path;

// law: paths are equal exactly if they are the same, and come before one another by node, then by k1, then by k2.
pub fn paths_compare()
    ensures same { (a b : Path) → ⟦<Path as PartialEq>⟧.eq a b ≡ same_path a b }
    ensures decides { (a b : Path) → Decides (⟦<Path as PartialEq>⟧.eq a b) (a ≡ b) }
    ensures order { (a b : Path) → ⟦<Path as Ord>⟧.cmp a b ≡ path_order a b }
    ensures partial_order { (a b : Path) → ⟦<Path as PartialOrd>⟧.partial_cmp a b ≡ Some (path_order a b) }
    ensures before { (a b : Path) → partial_lt ⟦<Path as PartialOrd>⟧.partial_cmp a b ≡ path_before a b }
{}
