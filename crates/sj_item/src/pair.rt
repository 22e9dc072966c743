// The pairs that the method `keyvalue` makes.
ghost use Rattle.std.specs.Prelude.{◌≡◌, [], pos, negsuc, codes, unwrap_or};
ghost use Rattle.sj_doc.specs.Listed.{node_id, node_tree, node_key};
ghost use Rattle.sj_item.specs.Items.{pair_value, pair_name, pair_held, pair_id, pair_item, named_text, named_id, node as node_value, made_number, made_text, made_pair};

use sj_doc::NodeRef;

/// What the method `keyvalue` makes of a member of an object, or of a pair: it stands for an object with the members
/// `name`, `value` and `id`.
///
/// However many pairs were made on the way to it, all that it has is said of one member of an object of the document.
/// So it refers to that member, and is small. Contracts see it as its `pair_item`.
#[derive(Clone, Copy)]
pub struct Pair<'d> {
    member: NodeRef<'d>,
    // The number of the object, which is below 2^25.
    object: u32,
    name: Name,
    value: Value,
}

/// What the name of a pair is. One that has the member's key was made of the object, and the others were made of pairs.
#[derive(Clone, Copy)]
enum Name {
    OfMember,
    NameWord,
    ValueWord,
    IdWord,
}

/// What the value of a pair is.
#[derive(Clone, Copy)]
enum Value {
    /// The node of the member.
    Member,
    /// The name of the pair that it was made of, or of one before.
    NameOf(Name),
    /// The id of such a pair, which its name tells.
    IdOf(Name),
}

/// The value of a pair, as it is read.
#[derive(Clone, Copy)]
pub enum PairValue<'d> {
    /// A node of the document.
    Node(NodeRef<'d>),
    /// The name of a pair.
    Text(&'d str),
    /// The id of a pair.
    Num(i64),
}

impl<'d> Pair<'d> {
    /// The pair of a member: its key, its node, and the number of the object.
    pub fn of_member(member: NodeRef<'d>, object: NodeRef<'d>) -> Pair<'d>
        ensures { pair_item result ≡ made_pair (unwrap_or (node_key member.entry) []) (node_value (node_id member.entry) (node_tree member.entry)) (pos (node_id object.entry)) }
    {
        Pair {
            member,
            object: object.id() as u32,
            name: Name::OfMember,
            value: Value::Member,
        }
    }

    /// The pair of the name of a pair.
    pub fn of_name(self) -> Pair<'d>
        ensures { pair_item result ≡ made_pair (codes "name") (made_text (pair_name self.entry)) (negsuc 0) }
    {
        Pair {
            name: Name::NameWord,
            value: Value::NameOf(self.name),
            ..self
        }
    }

    /// The pair of the value of a pair.
    pub fn of_value(self) -> Pair<'d>
        ensures { pair_item result ≡ made_pair (codes "value") (pair_held self.entry) (negsuc 0) }
    {
        Pair {
            name: Name::ValueWord,
            ..self
        }
    }

    /// The pair of the id of a pair.
    pub fn of_id(self) -> Pair<'d>
        ensures { pair_item result ≡ made_pair (codes "id") (made_number (pair_id self.entry, 0)) (negsuc 0) }
    {
        Pair {
            name: Name::IdWord,
            value: Value::IdOf(self.name),
            ..self
        }
    }

    /// Its name.
    pub fn name(self) -> &'d str
        ensures { result.now ≡ pair_name self.entry }
    {
        self.text_of(self.name)
    }

    /// Its value.
    pub fn value(self) -> PairValue<'d>
        ensures { pair_value result ≡ pair_held self.entry }
    {
        match self.value {
            Value::Member => PairValue::Node(self.member),
            Value::NameOf(name) => PairValue::Text(self.text_of(name)),
            Value::IdOf(name) => PairValue::Num(self.id_of(name)),
        }
    }

    /// Its id: the number of the object in preorder, or -1 where the pair was made of a pair.
    pub fn id(self) -> i64
        ensures { result ≡ pair_id self.entry }
    {
        self.id_of(self.name)
    }

    fn text_of(self, name: Name) -> &'d str
        ensures { result.now ≡ named_text self.entry name }
    {
        match name {
            Name::OfMember => key_of(self.member),
            Name::NameWord => "name",
            Name::ValueWord => "value",
            Name::IdWord => "id",
        }
    }

    // The id of a pair with such a name.
    fn id_of(self, name: Name) -> i64
        ensures { result ≡ named_id self.entry name }
    {
        match name {
            Name::OfMember => i64::from(self.object),
            _ => -1,
        }
    }
}

// The key of a member. It is there, since the parent is an object.
fn key_of(member: NodeRef<'_>) -> &str
    ensures { result.now ≡ unwrap_or (node_key member.entry) [] }
{
    match member.key() {
        Some(key) => key,
        None => "",
    }
}
