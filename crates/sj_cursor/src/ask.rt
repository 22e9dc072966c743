// Whether there is an item, and which one is the only one.
ghost use Rattle.std.specs.Prelude.{◌≡◌, ◌≤◌};
ghost use Rattle.sj_base.specs.Count.{raised};
ghost use Rattle.sj_cursor.specs.Answers.{exists_answer, single_value, answer_in};
ghost use Rattle.sj_plain_path.specs.Looks.{Finds, limit_of_single, look_value, nodes_look};
ghost use Rattle.sj_cursor.specs.Looks.{single_in, single_made};
ghost use Rattle.sj_cursor.specs.Single.{need, single};

use crate::cursor::{Cursor, Stands};
use sj_base::{State, Steps};
use sj_decimal::Decimal;
use sj_item::{Exact, Item};
use sj_plain_path::{Found, FoundNodes, Limit, Look};
use sj_step::Answer;

impl<'d> Cursor<'d> {
    /// Whether the path gives an item, from where the cursor stands. In lax mode the first item decides, even where a fault would
    /// follow; in strict mode all items are asked. It takes no memory. The cursor then stands anywhere.
    ///
    /// # Errors
    /// The state of the fault that leaves this open: in lax mode where no item comes before it, and in strict mode always.
    pub fn exists(&mut self, steps: &mut Steps) -> Result<bool, State>
        ensures answers { result ≡ exists_answer self.old.path.mode self.old.left }
        ensures costs { steps.new ≤ raised steps.old (need self.old.path.mode 1 self.old.left) }
        ensures path { self.new.path ≡ self.old.path }
        ensures vars { self.new.vars ≡ self.old.vars }
        ensures root { self.new.root ≡ self.old.root }
    {
        let look = self.look(Limit::of_exists(self.mode()), steps);
        exists_or_fault(look)
    }

    /// The only item that the path gives, from where the cursor stands, and `None` where it gives none. In lax mode a second item
    /// decides, even where a fault would follow; in strict mode all items are asked. It takes no memory. The cursor then stands
    /// anywhere.
    ///
    /// # Errors
    /// `several` where there are several items, and the state of a fault. In lax mode several items come first, and in strict mode
    /// a fault does.
    #[inline(always)]
    pub fn single(&mut self, several: State, steps: &mut Steps) -> Result<Option<Item<'d>>, State>
        ensures answers { single_value result ≡ single self.old.path.mode several self.old.left }
        ensures costs { steps.new ≤ raised steps.old (need self.old.path.mode 2 self.old.left) }
        ensures path { self.new.path ≡ self.old.path }
        ensures vars { self.new.vars ≡ self.old.vars }
        ensures root { self.new.root ≡ self.old.root }
    {
        let limit = Limit::of_single(self.mode());
        match (self.stands, &self.chain, &self.root) {
            (Stands::AtTheBeginning, Some(chain), Item::Node(root)) => {
                single_node(chain.nodes(*root, limit, steps), several)
            }
            _ => self.single_apart(limit, several, steps),
        }
    }

    // The same, cell by cell. The place in memory for the answer is cleared here, and not on the other way too. Put together anew, the
    // answer leaves that of the other way in registers.
    #[inline(always)]
    fn single_apart(
        &mut self,
        limit: Limit,
        several: State,
        steps: &mut Steps,
    ) -> Result<Option<Item<'d>>, State>
        requires { limit ≡ limit_of_single self.old.path.mode }
        ensures answers { single_value result ≡ single self.old.path.mode several self.old.left }
        ensures costs { steps.new ≤ raised steps.old (need self.old.path.mode 2 self.old.left) }
        ensures path { self.new.path ≡ self.old.path }
        ensures vars { self.new.vars ≡ self.old.vars }
        ensures root { self.new.root ≡ self.old.root }
    {
        Ok(self.single_on(limit, several, steps)?)
    }

    // The same, out of line.
    #[inline(never)]
    fn single_on(
        &mut self,
        limit: Limit,
        several: State,
        steps: &mut Steps,
    ) -> Result<Option<Item<'d>>, State>
        requires { limit ≡ limit_of_single self.old.path.mode }
        ensures answers { single_value result ≡ single self.old.path.mode several self.old.left }
        ensures costs { steps.new ≤ raised steps.old (need self.old.path.mode 2 self.old.left) }
        ensures path { self.new.path ≡ self.old.path }
        ensures vars { self.new.vars ≡ self.old.vars }
        ensures root { self.new.root ≡ self.old.root }
    {
        if let Some(found) = self.number(steps) {
            return single_number(found);
        }
        single_or_fault(self.look_on(limit, steps), several)
    }

    // Goes on until enough was found. A plain path is gone through without cells, from its beginning on.
    #[inline(always)]
    fn look(&mut self, limit: Limit, steps: &mut Steps) -> Look<'d>
        ensures finds { Finds limit self.old.left (look_value result) steps.old steps.new }
        ensures path { self.new.path ≡ self.old.path }
        ensures vars { self.new.vars ≡ self.old.vars }
        ensures root { self.new.root ≡ self.old.root }
    {
        match (self.stands, &self.chain, &self.root) {
            (Stands::AtTheBeginning, Some(chain), Item::Node(root)) => {
                chain.look(*root, limit, steps)
            }
            _ => self.look_on(limit, steps),
        }
    }

    // The same, cell by cell.
    #[inline(never)]
    fn look_on(&mut self, limit: Limit, steps: &mut Steps) -> Look<'d>
        ensures finds { Finds limit self.old.left (look_value result) steps.old steps.new }
        ensures path { self.new.path ≡ self.old.path }
        ensures vars { self.new.vars ≡ self.old.vars }
        ensures root { self.new.root ≡ self.old.root }
    {
        let mut found = Found::Nothing;
        let mut place = Item::Null;
        'looking: loop {
            match self.put_next(steps, &mut place) {
                Answer::Item => {
                    found = found.more(place);
                    if found.is_enough(limit) {
                        return Look { found, fault: None };
                    }
                }
                Answer::End => return Look { found, fault: None },
                Answer::Fault(state) => {
                    return Look {
                        found,
                        fault: Some(state),
                    };
                }
            }
        }
    }
}

/// Whether there is an item, unless a fault leaves that open.
pub(crate) fn exists_or_fault(look: Look<'_>) -> Result<bool, State>
    ensures { result ≡ answer_in (look_value look.entry) }
{
    match (look.fault, look.found) {
        (Some(state), _) => Err(state),
        (None, Found::Nothing) => Ok(false),
        (None, _) => Ok(true),
    }
}

/// The only node as an item, unless there are several.
#[inline(always)]
pub(crate) fn single_node<'d>(
    nodes: FoundNodes<'d>,
    several: State,
) -> Result<Option<Item<'d>>, State>
    ensures { single_value result ≡ single_in several (nodes_look nodes.entry) }
{
    match nodes {
        FoundNodes::Nothing => Ok(None),
        FoundNodes::One(node) => Ok(Some(Item::Node(node))),
        FoundNodes::Several => Err(several),
    }
}

/// The only item, unless there are several or a fault comes.
pub(crate) fn single_or_fault<'d>(look: Look<'d>, several: State) -> Result<Option<Item<'d>>, State>
    ensures { single_value result ≡ single_in several (look_value look.entry) }
{
    match (look.fault, look.found) {
        (Some(state), _) => Err(state),
        (None, Found::Nothing) => Ok(None),
        (None, Found::One(item)) => Ok(Some(item)),
        (None, Found::Several) => Err(several),
    }
}

/// The number that was made, as the only item, or the fault in its place.
fn single_number<'d>(found: Result<Decimal, State>) -> Result<Option<Item<'d>>, State>
    ensures { single_value result ≡ single_made found }
{
    match found {
        Ok(number) => Ok(Some(Item::Num(Exact::new(number)))),
        Err(state) => Err(state),
    }
}
