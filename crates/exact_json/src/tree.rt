//! What a JSON text is read into.

ghost use Rattle.std.specs.Prelude.{◌≡◌, option_map};
ghost use Rattle.std.specs.Prelude.{map};
ghost use Rattle.std.specs.Prelude.{[], ◌∷◌};
ghost use Rattle.exact_json.specs.Json.{text, items, object, list_items, last_member, truth, token, text_bytes, members_list, list_values, object_members};
ghost use Rattle.exact_json.specs.View.{tree_view, text_view, pair_view, items_view, members_view, pairs_in, object_view};
ghost use Rattle.exact_json.specs.Slices.{texts_of, items_texts, members_texts};

/// The bytes of a string, which are UTF-8.
#[derive(Clone, Copy)]
pub enum JsonText<'a> {
    /// The bytes between the quotation marks, where the string has no escape.
    Plain(&'a [u8]),
    /// The text that escapes stand for.
    Made(&'a [u8]),
}

/// A value, as `tree_view` shows it.
///
/// What a variant holds takes 16 bytes at most, so that a value takes 24 and a pair 48.
#[derive(Clone, Copy)]
#[cycle(tree)]
pub enum Tree<'a> {
    Null,
    Bool(bool),
    /// The token.
    Number(&'a [u8]),
    /// A string's bytes, as in `JsonText::Plain`.
    Plain(&'a [u8]),
    /// A string's text, as in `JsonText::Made`.
    Made(&'a [u8]),
    /// The values of a list, in order.
    Items(&'a [Tree<'a>]),
    Object(Members<'a>),
}

#[derive(Clone, Copy)]
#[cycle(tree)]
pub struct Pair<'a> {
    pub name: JsonText<'a>,
    pub value: Tree<'a>,
}

/// The pairs of an object, in order; equal names are kept.
#[derive(Clone, Copy)]
#[cycle(tree)]
pub struct Members<'a> {
    pub(crate) pairs: &'a [Pair<'a>],
}

impl<'a> JsonText<'a> {
    pub fn bytes(&self) -> &[u8]
        ensures { result.now ≡ text_view self.now }
    {
        match self {
            JsonText::Plain(bytes) => bytes,
            JsonText::Made(bytes) => bytes,
        }
    }
}

impl<'a> Tree<'a> {
    pub fn as_bool(&self) -> Option<bool>
        ensures { result ≡ truth (tree_view self.now) }
    {
        match self {
            Tree::Bool(value) => Some(*value),
            _ => None,
        }
    }

    /// The token of a number.
    pub fn as_number(&self) -> Option<&[u8]>
        ensures { option_map (λ s. s.now) result ≡ token (tree_view self.now) }
    {
        match self {
            Tree::Number(token) => Some(token),
            _ => None,
        }
    }

    pub fn as_text(&self) -> Option<&[u8]>
        ensures { option_map (λ s. s.now) result ≡ text_bytes (tree_view self.now) }
    {
        match self {
            Tree::Plain(bytes) => Some(bytes),
            Tree::Made(bytes) => Some(bytes),
            _ => None,
        }
    }

    /// The items of a list.
    pub fn as_items(&self) -> Option<&[Tree<'a>]>
        ensures { option_map (λ s. map tree_view s.now) result ≡ list_values (tree_view self.now) }
    {
        self.as_list()
    }

    fn as_list(&self) -> Option<&[Tree<'a>]>
        ensures { option_map (λ s. items_view s.now) result ≡ list_items (tree_view self.now) }
    {
        match self {
            Tree::Items(items) => Some(items),
            _ => None,
        }
    }

    /// The members of an object.
    pub fn as_object(&self) -> Option<&Members<'a>>
        ensures { option_map (λ m. object_view m.now) result ≡ object_members (tree_view self.now) }
    {
        match self {
            Tree::Object(members) => Some(members),
            _ => None,
        }
    }
}

/// The tree of a string's text.
pub(crate) fn string<'a>(string: JsonText<'a>) -> Tree<'a>
    ensures value { tree_view result ≡ text (text_view string.entry) }
    ensures texts { texts_of result ≡ string.entry ∷ [] }
{
    match string {
        JsonText::Plain(bytes) => Tree::Plain(bytes),
        JsonText::Made(bytes) => Tree::Made(bytes),
    }
}

/// The tree of a list's items.
pub(crate) fn array<'a>(list: &'a [Tree<'a>]) -> Tree<'a>
    ensures value { tree_view result ≡ items (items_view list.now) }
    ensures texts { texts_of result ≡ items_texts list.now }
{
    Tree::Items(list)
}

/// The tree of an object's pairs.
pub(crate) fn record<'a>(pairs: &'a [Pair<'a>]) -> Tree<'a>
    ensures value { tree_view result ≡ object (members_view pairs.now) }
    ensures texts { texts_of result ≡ members_texts pairs.now }
{
    Tree::Object(Members { pairs })
}

impl<'a> Members<'a> {
    pub fn as_slice(&self) -> &[Pair<'a>]
        ensures { map pair_view result.now ≡ members_list (object_view self.now) }
    {
        self.pairs()
    }

    fn pairs(&self) -> &[Pair<'a>]
        ensures { result.now ≡ pairs_in self.now }
    {
        self.pairs
    }

    /// The value of the last member of that name. It looks from the end, and takes no memory.
    pub fn get(&self, name: &[u8]) -> Option<&Tree<'a>>
        ensures { option_map (λ t. tree_view t.now) result ≡ last_member name.now (object_view self.now) }
    {
        let pairs = self.pairs();
        let mut left = pairs.len();
        while left > 0 {
            left -= 1;
            let pair = &pairs[left];
            if pair.name.bytes() == name {
                return Some(&pair.value);
            }
        }
        None
    }
}
