//! Laws of the meaning of forward paths, over its definitions alone.

ghost use Rattle.std.specs.Prelude.{◌≡◌, ℕ, List, map, All, AllPairs, Some, None};
ghost use Rattle.sj_json.specs.Tree.{Tree};
ghost use Rattle.sj_json.specs.Printing.{printed};
ghost use Rattle.sj_path_tree.specs.Tree.{Path};
ghost use Rattle.sj_path_tree.specs.Vars.{Variables};
ghost use Rattle.sj_item.specs.Items.{ItemValue, node, item_tree};
ghost use Rattle.sj_step.specs.Trace.{items, fault_of};
ghost use Rattle.sj_cursor.specs.Meaning.{path_trace};
ghost use Rattle.sj_forward.specs.Forward.{Accessor, accessors_of};
ghost use Rattle.sj_forward.specs.Walk.{at, walk};
ghost use Rattle.sj_forward_laws.specs.Reached.{all_reached};
ghost use Rattle.sj_forward_laws.specs.Apart.{IsNodeOf, IsBefore};

/// The walk with one place for each node has what the accessors reach, in order.
pub fn walk_is_all_reached()
    ensures { (left : List Accessor) (t : Tree) → walk (at left) t ≡ all_reached left t }
{}

/// The items of a forward path are those of the walk, in order, on every item and whatever the variables. So their printed texts are the
/// same.
pub fn forward_items_are_walked()
    ensures trees { (path : Path) (left : List Accessor) (vars : Variables) (root : ItemValue) → accessors_of path ≡ Some left
        → map item_tree (items (path_trace path vars root)) ≡ walk (at left) (item_tree root) }
    ensures texts { (path : Path) (left : List Accessor) (vars : Variables) (root : ItemValue) → accessors_of path ≡ Some left
        → map (λ x. printed (item_tree x)) (items (path_trace path vars root)) ≡ map printed (walk (at left) (item_tree root)) }
{}

/// A forward path ends well on every item, whatever its variables.
pub fn forward_paths_end_well()
    ensures { (path : Path) (left : List Accessor) (vars : Variables) (root : ItemValue) → accessors_of path ≡ Some left
        → fault_of (path_trace path vars root) ≡ None }
{}

/// On a node, the items of a forward path are nodes of its tree. Of two of them the later one comes behind the earlier one and all that is
/// below it. So they come in the order of the text, and no item is part of another.
pub fn forward_items_lie_apart()
    ensures nodes { (path : Path) (left : List Accessor) (vars : Variables) (i : ℕ) (t : Tree) → accessors_of path ≡ Some left
        → All (IsNodeOf i t) (items (path_trace path vars (node i t))) }
    ensures apart { (path : Path) (left : List Accessor) (vars : Variables) (i : ℕ) (t : Tree) → accessors_of path ≡ Some left
        → AllPairs IsBefore (items (path_trace path vars (node i t))) }
{}
