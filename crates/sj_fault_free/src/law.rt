//! A law of the meaning of paths, over its definitions alone.

ghost use Rattle.std.specs.Prelude.{◌≡◌, true, None};
ghost use Rattle.sj_path_tree.specs.Tree.{Path};
ghost use Rattle.sj_item.specs.Items.{ItemValue};
ghost use Rattle.sj_step.specs.Trace.{fault_of};
ghost use Rattle.sj_fault_free.specs.FaultFree.{fault_free};
ghost use Rattle.sj_path_tree.specs.Vars.{Variables};
ghost use Rattle.sj_cursor.specs.Meaning.{path_trace};

/// A path whose form rules out a fault ends well on every item, whatever its variables.
pub fn fault_free_paths_end_well()
    ensures { (path : Path) (vars : Variables) (root : ItemValue) → fault_free path ≡ true → fault_of (path_trace path vars root) ≡ None }
{}
