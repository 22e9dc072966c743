//! Paths, evaluated lazily: what a path means on an item, a cursor that gives it item by item, and an inquiry whether it has an item and
//! which is its only one.
//!
//! `specs/Meaning.antt` says which trace a path has (ISO/IEC 9075-2, SQL/JSON path language): its items in order, how it
//! ends, and which children of nodes are handed out on the way. `specs/Verdicts.antt` and `specs/Comparisons.antt` say what
//! predicates are, and what finding their truth may take; `specs/Single.antt` and `specs/Numbers.antt` what operands and
//! subscripts are.
//!
//! A [`Cursor`] goes by a trail where its path has one, and else by cells. Both are made in `Cursor::new`, which takes all memory. Each
//! is asked for one item at a time and holds where it stands, and no list. `specs/Trails.antt` says what a trail has left, and
//! `specs/Left.antt` which expression a cell is of, and which trace it has left.
//!
//! An [`Inquiry`] asks a path for no more than its first two items. Of a plain path (below) it has the accessors alone, and of any other
//! path a cursor.
//!
//! # How a path is evaluated
//!
//! **A trail** (`trail.rt`) serves most paths in lax mode: `$` and behind it accessors of members, `[*]`, and filters that compare a
//! member of `@` with a literal, as `lax $.lines[*] ? (@.qty > 3).sku`. It goes down the document by moves, and has a frame for each array
//! or object of which children are still to come. The next item is found from the next child of the innermost one. `specs/Moves.antt`
//! says what moves give. An item that the method `keyvalue` made has one item at most behind each move, until a node is reached.
//!
//! **Cells** serve all other paths. A path is a chain: a beginning such as `$`, and behind it accessors, filters and methods. Each of its
//! parts becomes a cell that owns the cell before it. The cells of `lax $.lines[*] ? (@.qty > @.min).sku` are
//!
//! ```text
//! Each(.sku) ── asks ──▶ Each(? filter) ──▶ Each([*]) ──▶ Each(.lines) ──▶ One($)
//!                            │ tests each item by
//!                            ▼
//!                        Compare(>): Each(.qty) ──▶ One(@)     and     Each(.min) ──▶ One(@)
//! ```
//!
//! **One call of `next`** asks the last cell for an item. A cell first gives what it still has of the item at hand: the
//! members or elements that are left, say. If nothing is left, it asks the cell before it for the next item, takes that in
//! hand and begins anew. In lax mode an array that is handed over to a member accessor, a filter or most methods is
//! unwrapped on the way: the cell then takes its elements one after the other. So at most one item is at hand in each cell,
//! and no list is ever built.
//!
//! **A filter** takes an item in hand, rewinds the cells of its predicate, and evaluates these with the item as their `@`.
//! It gives the item if the predicate is True and asks for the next one if it is False or Unknown. On
//! `{"lines":[{"qty":2,"min":3,"sku":"a"},{"qty":5,"min":3,"sku":"b"}]}` the first call of `next` goes down to `$`, `.lines` finds the
//! array, `[*]` gives its first element, the filter rejects it (2 > 3 is False), `[*]` gives the second element, the filter
//! keeps it, and `.sku` gives `"b"`. The second call finds nothing left in any cell, and ends.
//!
//! **A fault** (a missing member in strict mode, say) passes through all cells to the caller and ends the path. Inside a
//! predicate it makes the truth Unknown instead, and the path goes on.
//!
//! **A rewind** forgets the frames of a trail, and sends each cell back to its beginning: no item is at hand, and nothing was given. An accessor of a member behind `$`, as
//! `.lines` above, takes `$` in hand at once where this is no array, and a method does so too. It takes no memory, so one
//! cursor serves the items of one row after another, of one line after another. Both go back when they are first asked.
//!
//! **A plain path**, `lax $` and behind it accessors of members, `[*]` and subscripts such as `[0]`, needs no cells where an inquiry, or
//! a cursor at its beginning, is asked whether there is an item, or which is the only one. A `Chain` of `sj_plain_path` then goes down the
//! document from accessor to accessor.
//!
//! An operand that is one member of `@` or `$`, as `@.qty` above, is read in the same way for each item that the filter tests: its
//! cells are asked in strict mode and where the item is no node.
//!
//! The crate stands on `sj_path_tree` for paths and variables, on `sj_step` for traces, on `sj_walk` for accessors, on `sj_plain_path` for
//! plain paths, and on `sj_method` for methods and arithmetic. It promises that each call of `Cursor::next` gives the first item that the meaning has left, or
//! its end, takes no memory, and raises the counter by no more than the visits that stand before that item or end, and that the calls of
//! an inquiry answer as the meaning on the item says.
#![tactic(auto)]

mod arithmetic;
mod arrival;
mod ask;
mod build;
mod cells;
mod cursor;
mod env;
mod held;
mod inquiry;
mod keyed;
mod look;
mod moves;
mod next;
mod one;
mod pairing;
mod predicates;
mod rewind;
mod simple;
mod subscripts;
mod trail;

pub use cursor::Cursor;
pub use inquiry::Inquiry;
