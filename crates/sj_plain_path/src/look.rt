// What is found of a trace that is gone through until enough was found.
ghost use Rattle.std.specs.Prelude.{◌≡◌};
ghost use Rattle.sj_item.specs.Items.{item_value};
ghost use Rattle.sj_plain_path.specs.Chains.{node_value};
ghost use Rattle.sj_plain_path.specs.Looks as looks;

use sj_base::State;
use sj_doc::NodeRef;
use sj_item::{Item, Truth};
use sj_path_tree::Mode;

/// How far a trace is gone through.
#[derive(Clone, Copy)]
pub enum Limit {
    /// To the first item.
    First,
    /// To the second item.
    Second,
    /// To its end.
    End,
}

impl Limit {
    /// In lax mode an item decides whether there is one, and in strict mode the end does.
    pub fn of_exists(mode: Mode) -> Limit
        ensures { result ≡ looks.limit_of_exists mode }
    {
        match mode {
            Mode::Lax => Limit::First,
            Mode::Strict => Limit::End,
        }
    }

    /// In lax mode a second item decides that there is no single one, and in strict mode the end does.
    pub fn of_single(mode: Mode) -> Limit
        ensures { result ≡ looks.limit_of_single mode }
    {
        match mode {
            Mode::Lax => Limit::Second,
            Mode::Strict => Limit::End,
        }
    }
}

/// The items that were found.
#[derive(Clone, Copy)]
pub enum Found<'d> {
    /// None.
    Nothing,
    /// A single one.
    One(Item<'d>),
    /// More than one. Which ones is not kept.
    Several,
}

impl<'d> Found<'d> {
    /// With one more item.
    pub fn more(self, item: Item<'d>) -> Found<'d>
        ensures { looks.found_value result ≡ looks.more (looks.found_value self.entry) (item_value item.entry) }
    {
        match self {
            Found::Nothing => Found::One(item),
            Found::One(_) | Found::Several => Found::Several,
        }
    }

    /// Whether nothing further is to be found.
    pub fn is_enough(&self, limit: Limit) -> bool
        ensures { result ≡ looks.is_enough limit (looks.found_value self.now) }
    {
        match (limit, self) {
            (Limit::First, Found::Nothing) => false,
            (Limit::First, _) => true,
            (Limit::Second, Found::Several) => true,
            (Limit::Second, _) => false,
            (Limit::End, _) => false,
        }
    }
}

/// The nodes that were found, which are the items of a plain path.
#[derive(Clone, Copy)]
pub enum FoundNodes<'d> {
    /// None.
    Nothing,
    /// A single one.
    One(NodeRef<'d>),
    /// More than one. Which ones is not kept.
    Several,
}

impl<'d> FoundNodes<'d> {
    /// With one more node.
    #[inline(always)]
    pub(crate) fn more(self, node: NodeRef<'d>) -> FoundNodes<'d>
        ensures { looks.nodes_value result ≡ looks.more (looks.nodes_value self.entry) (node_value node.entry) }
    {
        match self {
            FoundNodes::Nothing => FoundNodes::One(node),
            FoundNodes::One(_) | FoundNodes::Several => FoundNodes::Several,
        }
    }

    /// The nodes as items.
    #[inline(always)]
    pub fn found(self) -> Found<'d>
        ensures { looks.found_value result ≡ looks.nodes_value self.entry }
    {
        match self {
            FoundNodes::Nothing => Found::Nothing,
            FoundNodes::One(node) => Found::One(Item::Node(node)),
            FoundNodes::Several => Found::Several,
        }
    }

    /// Whether nothing further is to be found.
    #[inline(always)]
    pub(crate) fn is_enough(self, limit: Limit) -> bool
        ensures { result ≡ looks.is_enough limit (looks.nodes_value self.entry) }
    {
        match (limit, self) {
            (Limit::First, FoundNodes::Nothing) => false,
            (Limit::First, _) => true,
            (Limit::Second, FoundNodes::Several) => true,
            (Limit::Second, _) => false,
            (Limit::End, _) => false,
        }
    }
}

/// The items that were found, and the fault that was met.
#[derive(Clone, Copy)]
pub struct Look<'d> {
    /// The items.
    pub found: Found<'d>,
    /// The state of the fault, where one was met before enough was found.
    pub fault: Option<State>,
}

impl<'d> Look<'d> {
    /// Whether there is an item, where a fault leaves that unknown.
    #[inline(always)]
    pub fn exists(self) -> Truth
        ensures { result ≡ looks.exists_in (looks.look_value self.entry) }
    {
        match (self.fault, self.found) {
            (Some(_), _) => Truth::Unknown,
            (None, Found::Nothing) => Truth::False,
            (None, _) => Truth::True,
        }
    }
}
