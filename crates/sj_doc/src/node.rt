// A node, and the range of text that it refers to.
ghost use Rattle.std.specs.Prelude.{◌≡◌};
ghost use Rattle.sj_doc.specs.Kinds.{body_kind, body_count, opens_object};

/// What a value is (RFC 8259, section 3).
#[derive(Clone, Copy, Debug, Drop, PartialEq, Eq)]
pub enum Kind {
    Null,
    Truth,
    Number,
    String,
    Array,
    Object,
}

/// What a builder takes next.
#[derive(Clone, Copy, Debug, Drop, PartialEq, Eq)]
pub enum Want {
    /// A value: the root, or the value of the key that was given.
    Value,
    /// An element of the innermost array, or its end.
    ValueOrClose,
    /// A key of the innermost object, or its end.
    KeyOrClose,
    /// Nothing: the document is complete.
    Nothing,
}

// A range of the document's text.
#[derive(Clone, Copy, Drop)]
pub(crate) struct Span {
    pub(crate) start: u32,
    pub(crate) len: u32,
}

// What a node is. A container that is complete has the number of its children, and says how far it lies behind
// its parent, 0 at the root. While it is open it has the number of its parent, and how many children the parent
// had before.
#[derive(Clone, Copy, Drop)]
pub(crate) enum Body {
    Null,
    Truth(bool),
    Text(Span),
    // the text of a number
    Numeral(Span),
    Closed {
        is_object: bool,
        count: u32,
        up: u32,
    },
    Opened {
        is_object: bool,
        parent: u32,
        before: u32,
    },
}

// A node under its key. `below` is the number of nodes below it: 0 at a scalar, and while a container is open.
#[derive(Clone, Copy, Drop)]
pub(crate) struct Node {
    pub(crate) key: Option<Span>,
    pub(crate) below: u32,
    pub(crate) body: Body,
}

impl Body {
    pub(crate) fn kind(self) -> Kind
        ensures { result ≡ body_kind self }
    {
        match self {
            Body::Null => Kind::Null,
            Body::Truth(_) => Kind::Truth,
            Body::Text(_) => Kind::String,
            Body::Numeral(_) => Kind::Number,
            Body::Closed {
                is_object: false,
                ..
            } => Kind::Array,
            Body::Closed {
                is_object: true,
                ..
            } => Kind::Object,
            // no document has an open container
            Body::Opened { .. } => Kind::Null,
        }
    }

    // The number of children.
    pub(crate) fn count(self) -> u32
        ensures { result ≡ body_count self }
    {
        match self {
            Body::Closed { count, .. } => count,
            _ => 0,
        }
    }

    pub(crate) fn is_open_object(self) -> bool
        ensures { result ≡ opens_object self }
    {
        match self {
            Body::Opened { is_object, .. } => is_object,
            _ => false,
        }
    }
}
