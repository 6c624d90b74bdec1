// The words of the command line.
ghost use Rattle.std.specs.Prelude.{◌≡◌, map, MatchOption, None, Some};
ghost use Rattle.run_io.specs.Words.{text_of_word, may_name_file, names_of, pair_names_of, command_of};
ghost use Rattle.run_io.specs.Named.{IsSeenAsCommand, IsSeenAsPair, seen_names, seen_pair_names, seen_file, name_of, pair_name_of};

/// One of the files of a command.
#[derive(Clone, Copy, Debug, PartialEq, Eq)]
pub enum FileKind {
    Ast,
    Jrag,
    Tree,
    Queries,
}

/// The names of the four files of `run`, as the words give them.
#[derive(Clone, Copy)]
pub struct Names<'a> {
    pub ast: &'a str,
    pub jrag: &'a str,
    pub tree: &'a str,
    pub queries: &'a str,
}

/// The names of the two files of `check` or of `tree`: a grammar, and aspects or a tree.
#[derive(Clone, Copy)]
pub struct PairNames<'a> {
    pub ast: &'a str,
    pub other: &'a str,
}

/// What the words ask for.
#[derive(Clone, Copy)]
pub enum Command<'a> {
    /// The replies to queries.
    Run(Names<'a>),
    /// The counts of aspects that break no rule.
    Check(PairNames<'a>),
    /// The canonical text of a tree.
    Tree(PairNames<'a>),
}

fn may_name_file(word: &str) -> bool
    ensures { result ≡ may_name_file word.now }
{
    let bytes = word.as_bytes();
    !(bytes.len() > 1 && bytes[0] == b'-')
}

// The names of the files, where the words are `run` and four names. A name that begins with `-` and is longer than one byte is refused.
fn names_of(words: &[String]) -> Option<Names<'_>>
    ensures { MatchOption result (names_of (map text_of_word words.now) ≡ None) (λ names. names_of (map text_of_word words.now) ≡ Some (seen_names names)) }
{
    let [command, ast, jrag, tree, queries] = words else {
        return None;
    };
    let names = Names {
        ast: ast.as_str(),
        jrag: jrag.as_str(),
        tree: tree.as_str(),
        queries: queries.as_str(),
    };
    if command.as_str() == "run"
        && may_name_file(names.ast)
        && may_name_file(names.jrag)
        && may_name_file(names.tree)
        && may_name_file(names.queries)
    {
        Some(names)
    } else {
        None
    }
}

// The names of the files, where the words are this command and two names.
fn pair_names_of<'a>(words: &'a [String], wanted: &str) -> Option<PairNames<'a>>
    ensures { IsSeenAsPair result (pair_names_of wanted.now (map text_of_word words.now)) }
{
    let [command, ast, other] = words else {
        return None;
    };
    let names = PairNames {
        ast: ast.as_str(),
        other: other.as_str(),
    };
    if command.as_str() == wanted && may_name_file(names.ast) && may_name_file(names.other) {
        Some(names)
    } else {
        None
    }
}

/// What the words ask for, where they are `run` and four names of files, or `check` or `tree` and two.
pub fn command_of(words: &[String]) -> Option<Command<'_>>
    ensures { IsSeenAsCommand result (command_of (map text_of_word words.now)) }
{
    if let Some(names) = names_of(words) {
        return Some(Command::Run(names));
    }
    if let Some(names) = pair_names_of(words, "check") {
        return Some(Command::Check(names));
    }
    match pair_names_of(words, "tree") {
        Some(names) => Some(Command::Tree(names)),
        None => None,
    }
}

/// The name of a file of `run`.
pub fn name_of<'a>(names: Names<'a>, file: FileKind) -> &'a str
    ensures { result.now ≡ name_of (seen_names names.entry) (seen_file file) }
{
    match file {
        FileKind::Ast => names.ast,
        FileKind::Jrag => names.jrag,
        FileKind::Tree => names.tree,
        FileKind::Queries => names.queries,
    }
}

/// The name of a file of `check` or of `tree`, which have a grammar and one file more.
pub fn pair_name_of<'a>(names: PairNames<'a>, file: FileKind) -> &'a str
    ensures { result.now ≡ pair_name_of (seen_pair_names names.entry) (seen_file file) }
{
    match file {
        FileKind::Ast => names.ast,
        FileKind::Jrag | FileKind::Tree | FileKind::Queries => names.other,
    }
}
