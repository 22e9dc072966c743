// A line of the input, as a statement sees it.
ghost use Rattle.std.specs.Prelude.{◌≡◌, option_map};
ghost use Rattle.sj_func.specs.Functions.{context_value};
ghost use Rattle.sj_select_list.specs.Line.{line_of, context, tree_of};

use sj_base::State;
use sj_doc::Doc;
use sj_func::Context;
use sj_item::Item;

/// A line of the input.
#[derive(Clone, Copy)]
pub enum LineDoc<'d> {
    /// It is not JSON: functions have the error 22032.
    NotJson,
    /// It is JSON in which some object has two equal keys, where keys are to be unique: functions have the error 22037.
    Repeated(&'d Doc),
    /// It is JSON, and its root is the context item of functions.
    Json(&'d Doc),
}

impl<'d> LineDoc<'d> {
    /// The context item of the functions, or the error in its place.
    #[inline(always)]
    pub fn context(self) -> Context<'d>
        ensures { context_value result ≡ context (line_of self.entry) }
    {
        match self {
            LineDoc::NotJson => Context::Bad(State::S22032),
            LineDoc::Repeated(_) => Context::Bad(State::S22037),
            LineDoc::Json(doc) => Context::Item(Item::Node(doc.root())),
        }
    }

    /// The document, which IS JSON sees.
    pub(crate) fn doc(self) -> Option<&'d Doc>
        ensures { option_map (λ d. d.now) result ≡ tree_of (line_of self.entry) }
    {
        match self {
            LineDoc::NotJson => None,
            LineDoc::Repeated(doc) | LineDoc::Json(doc) => Some(doc),
        }
    }
}
