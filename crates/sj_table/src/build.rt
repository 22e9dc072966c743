// The cells of a plan, made whole. Memory is taken here, and where a path gets its cursor.
ghost use Rattle.std.specs.Prelude.{◌≡◌, ◌≤◌, ◌<◌, ℕ, length, map, IfOk};
ghost use Rattle.sj_path_tree.specs.View.{path_of};
ghost use Rattle.sj_value.specs.Plans.{plan_tree, times};
ghost use Rattle.sj_table.specs.Cells.{core, path_source};
ghost use Rattle.sj_table.specs.Rows.{single as single_of, nested as nested_of, union as union_of, cross as cross_of, source, sourced};

use crate::cells::{At, Cell, Cross, Hand, Nested, PathCell, Side, Stage, Union};
use crate::join::Join;
use crate::run::Run;
use sj_base::{Memory, boxed};
use sj_item::Item;
use sj_path_tree::{Path, Vars};
use sj_value::Plan;
use std::alloc::Global;

/// The cells of a plan over paths.
///
/// It recurs over the plan, so it holds nothing but boxes, and what makes a large cell of parts that are made already is kept
/// out of line: what a frame holds is taken as often as a plan is nested.
pub(crate) fn plan_cell<'d>(
    alloc: Global,
    plan: &'d Plan,
    paths: &'d [Path],
    vars: &'d Vars,
) -> Result<Box<Cell<'d>>, Memory>
    requires { (k : ℕ) → length paths.now ≤ k → times k (plan_tree plan.now) ≡ 0 }
    ensures { IfOk result (λ c. core c.value ≡ sourced (map path_of paths.now) vars.now (plan_tree plan.now)) }
{
    match plan {
        Plan::Path(number) => single(alloc, *number, paths, vars),
        Plan::Outer(number, below) => {
            let below = plan_cell(alloc, below, paths, vars)?;
            nested(alloc, Join::Outer, *number, below, paths, vars)
        }
        Plan::Inner(number, below) => {
            let below = plan_cell(alloc, below, paths, vars)?;
            nested(alloc, Join::Inner, *number, below, paths, vars)
        }
        Plan::Union(left, right) => {
            let left = plan_cell(alloc, left, paths, vars)?;
            let right = plan_cell(alloc, right, paths, vars)?;
            union(alloc, left, right)
        }
        Plan::Cross(left, right) => {
            let left = plan_cell(alloc, left, paths, vars)?;
            let right = plan_cell(alloc, right, paths, vars)?;
            cross(alloc, left, right)
        }
    }
}

// A path alone.
#[inline(never)]
fn single<'d>(
    alloc: Global,
    number: u32,
    paths: &'d [Path],
    vars: &'d Vars,
) -> Result<Box<Cell<'d>>, Memory>
    requires { number < length paths.now }
    ensures { IfOk result (λ c. core c.value ≡ single_of (source (map path_of paths.now) vars.now number)) }
{
    let path = path_cell(alloc, number, paths, vars)?;
    boxed(alloc, Cell::Single(path))
}

// A path with the plan below it.
#[inline(never)]
fn nested<'d>(
    alloc: Global,
    join: Join,
    number: u32,
    below: Box<Cell<'d>>,
    paths: &'d [Path],
    vars: &'d Vars,
) -> Result<Box<Cell<'d>>, Memory>
    requires { number < length paths.now }
    ensures { IfOk result (λ c. core c.value ≡ nested_of join (source (map path_of paths.now) vars.now number) (core below.entry.value)) }
{
    let parent = path_cell(alloc, number, paths, vars)?;
    let cell = Cell::Nested(Nested {
        join,
        parent,
        below,
        at: At::Nothing,
    });
    boxed(alloc, cell)
}

#[inline(never)]
fn union<'d>(
    alloc: Global,
    left: Box<Cell<'d>>,
    right: Box<Cell<'d>>,
) -> Result<Box<Cell<'d>>, Memory>
    ensures { IfOk result (λ c. core c.value ≡ union_of (core left.entry.value) (core right.entry.value)) }
{
    let cell = Cell::Union(Union {
        left,
        right,
        side: Side::Left,
    });
    boxed(alloc, cell)
}

#[inline(never)]
fn cross<'d>(
    alloc: Global,
    left: Box<Cell<'d>>,
    right: Box<Cell<'d>>,
) -> Result<Box<Cell<'d>>, Memory>
    ensures { IfOk result (λ c. core c.value ≡ cross_of (core left.entry.value) (core right.entry.value)) }
{
    let cell = Cell::Cross(Cross {
        left,
        right,
        hand: Hand::Empty,
    });
    boxed(alloc, cell)
}

fn path_cell<'d>(
    alloc: Global,
    number: u32,
    paths: &'d [Path],
    vars: &'d Vars,
) -> Result<PathCell<'d>, Memory>
    requires { number < length paths.now }
    ensures { IfOk result (λ c. path_source c ≡ source (map path_of paths.now) vars.now number) }
{
    Ok(PathCell {
        number,
        run: Run::new(alloc, &paths[number as usize], vars)?,
        stage: Stage::Unasked,
        item: Item::Null,
        ordinal: 0,
    })
}
