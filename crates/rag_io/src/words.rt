// Words that have a meaning of their own in aspects.
ghost use Rattle.std.specs.Prelude.{◌≡◌};
ghost use Rattle.rag_io.specs.Words.{is_one_of, type_words, value_words, item_words, contribution_words, is_reserved, left_out_items, modifiers, is_left_out};

fn is_type_word(text: &[u8]) -> bool
    ensures { result ≡ is_one_of type_words text.now }
{
    text == b"boolean".as_slice()
        || text == b"int".as_slice()
        || text == b"String".as_slice()
        || text == b"Set".as_slice()
}

fn is_value_word(text: &[u8]) -> bool
    ensures { result ≡ is_one_of value_words text.now }
{
    text == b"true".as_slice()
        || text == b"false".as_slice()
        || text == b"null".as_slice()
        || text == b"empty".as_slice()
        || text == b"this".as_slice()
        || text == b"new".as_slice()
        || text == b"instanceof".as_slice()
}

fn is_item_word(text: &[u8]) -> bool
    ensures { result ≡ is_one_of item_words text.now }
{
    text == b"syn".as_slice()
        || text == b"inh".as_slice()
        || text == b"eq".as_slice()
        || text == b"coll".as_slice()
        || text == b"nta".as_slice()
        || text == b"lazy".as_slice()
        || text == b"aspect".as_slice()
}

fn is_contribution_word(text: &[u8]) -> bool
    ensures { result ≡ is_one_of contribution_words text.now }
{
    text == b"when".as_slice() || text == b"to".as_slice() || text == b"for".as_slice()
}

/// Whether a word is reserved in aspects, as `syn` or `int`: a class, a component or an attribute can't be
/// named by it. The list is this project's own.
#[tactic(auto, unfolding(crate::specs::Words::is_reserved))]
pub fn is_reserved(text: &[u8]) -> bool
    ensures { result ≡ is_reserved text.now }
{
    is_type_word(text) || is_value_word(text) || is_item_word(text) || is_contribution_word(text)
}

fn is_modifier(text: &[u8]) -> bool
    ensures { result ≡ is_one_of modifiers text.now }
{
    text == b"public".as_slice()
        || text == b"private".as_slice()
        || text == b"protected".as_slice()
        || text == b"static".as_slice()
        || text == b"void".as_slice()
}

fn is_left_out_item(text: &[u8]) -> bool
    ensures { result ≡ is_one_of left_out_items text.now }
{
    text == b"import".as_slice()
        || text == b"refine".as_slice()
        || text == b"rewrite".as_slice()
        || text == b"interface".as_slice()
        || text == b"class".as_slice()
}

/// Whether a word belongs to a part of JastAdd2's notation that this profile leaves out, as `rewrite` or
/// `class`. Aspects have no names by such words.
#[tactic(auto, unfolding(crate::specs::Words::is_left_out))]
pub fn is_left_out(text: &[u8]) -> bool
    ensures { result ≡ is_left_out text.now }
{
    is_left_out_item(text) || is_modifier(text)
}
