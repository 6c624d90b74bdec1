// The systems that texts say, and long texts.
ghost use Rattle.std.specs.Prelude.{◌≤◌, IfOk, length};
ghost use Rattle.rag_io.specs.Outside.{longest_file};
ghost use Rattle.ast_grammar.specs.Grammar.{IsGrammar};
ghost use Rattle.attr_equations.specs.Kept.{rules_in};
ghost use Rattle.attr_rules.specs.Rules.{AreRules, EquationsRise};
ghost use Rattle.equation_law.specs.Checked.{HasSourcesAlone, IsProgram};
ghost use Rattle.equation_law.specs.Systems.{program_of};
ghost use Rattle.tree_arena.specs.Terms.{IsTreeOf};

use ast_grammar::{Grammar, read_ast_bytes};
use attr_equations::Rules;
use attr_types::check;
use broken_rules::ReadFault;
use equation_law::{Queries, System};
use jrag_reader::read_jrag_bytes;
use monotone_check::check_monotone;
use program_reader::{Refusal, read_system};
use rag_io::{LONGEST_FILE, Pool};
use run_io::Contents;
use std::alloc::{AllocError, Global};
use std::fmt::Write;
use tree_arena::Tree;
use tree_reader::read_tree_bytes;

/// The texts of a grammar, aspects, a tree and queries.
#[derive(Clone, Copy)]
pub(crate) struct Texts<'a> {
    pub(crate) ast: &'a str,
    pub(crate) jrag: &'a str,
    pub(crate) tree: &'a str,
    pub(crate) queries: &'a str,
}

fn bytes_of(alloc: Global, text: &str) -> Result<Vec<u8>, Refusal>
    ensures { IfOk result (λ bytes. length bytes.items ≤ longest_file) }
{
    if text.len() > LONGEST_FILE {
        return Err(Refusal::Memory);
    }
    match Vec::from_slice(alloc, text.as_bytes()) {
        Ok(bytes) => Ok(bytes),
        Err(_) => Err(Refusal::Memory),
    }
}

/// The system that four texts say.
pub(crate) fn system_said(alloc: Global, texts: &Texts<'_>) -> Result<System, Refusal>
    ensures program { IfOk result (λ system. IsProgram (program_of system)) }
    ensures bare { IfOk result (λ system. HasSourcesAlone (program_of system)) }
{
    let contents = Contents {
        ast: bytes_of(alloc, texts.ast)?,
        jrag: bytes_of(alloc, texts.jrag)?,
        tree: bytes_of(alloc, texts.tree)?,
        queries: bytes_of(alloc, texts.queries)?,
    };
    match read_system(alloc, &contents) {
        Ok(system) => Ok(system),
        Err(refusal) => Err(refusal),
    }
}

/// The grammar that a text says.
pub(crate) fn grammar_of(alloc: Global, text: &str) -> Result<Grammar, ReadFault>
    ensures { IfOk result IsGrammar }
{
    if text.len() > LONGEST_FILE {
        return Err(ReadFault::Memory);
    }
    read_ast_bytes(alloc, text.as_bytes())
}

/// The tree that a text says, and its texts.
pub(crate) fn tree_of(
    alloc: Global,
    grammar: &Grammar,
    text: &str,
) -> Result<(Tree, Pool), ReadFault> {
    if text.len() > LONGEST_FILE {
        return Err(ReadFault::Memory);
    }
    let mut pool = Pool::new(alloc)?;
    let tree = read_tree_bytes(alloc, grammar, text.as_bytes(), &mut pool)?;
    Ok((tree, pool))
}

/// The rules that a text says over a grammar. Its texts go into the pool.
fn rules_said(
    alloc: Global,
    grammar: &Grammar,
    text: &str,
    pool: &mut Pool,
) -> Result<Rules, ReadFault>
    requires { IsGrammar grammar.now }
    ensures rules { IfOk result (λ rules. AreRules grammar.now (rules_in rules)) }
    ensures rising { IfOk result (λ rules. EquationsRise (rules_in rules)) }
{
    if text.len() > LONGEST_FILE {
        return Err(ReadFault::Memory);
    }
    let aspects = read_jrag_bytes(alloc, text.as_bytes(), pool)?;
    let rules = check(alloc, grammar, &aspects)?;
    match check_monotone(&rules) {
        Ok(()) => Ok(rules),
        Err(broken) => Err(ReadFault::Broken(broken)),
    }
}

/// The tree that a text says over a grammar. Its texts go into the pool.
pub(crate) fn tree_said(
    alloc: Global,
    grammar: &Grammar,
    text: &str,
    pool: &mut Pool,
) -> Result<Tree, ReadFault>
    ensures { IfOk result (IsTreeOf grammar.now (length pool.new)) }
{
    if text.len() > LONGEST_FILE {
        return Err(ReadFault::Memory);
    }
    read_tree_bytes(alloc, grammar, text.as_bytes(), pool)
}

/// The system over a grammar that texts say without queries.
fn system_over(alloc: Global, grammar: Grammar, texts: &Texts<'_>) -> Result<System, ReadFault>
    requires { IsGrammar grammar }
    ensures { IfOk result (λ system. IsProgram (program_of system)) }
{
    let mut pool = Pool::new(alloc)?;
    let rules = rules_said(alloc, &grammar, texts.jrag, &mut pool)?;
    let tree = tree_said(alloc, &grammar, texts.tree, &mut pool)?;
    let queries = Queries::new(Vec::new(alloc));
    Ok(System::new(alloc, grammar, rules, tree, pool, queries)?)
}

/// The system that texts say without queries. Its attributes may make trees, which `read_system` doesn't take yet.
pub(crate) fn system_checked(alloc: Global, texts: &Texts<'_>) -> Result<System, ReadFault>
    ensures { IfOk result (λ system. IsProgram (program_of system)) }
{
    let grammar = grammar_of(alloc, texts.ast)?;
    system_over(alloc, grammar, texts)
}

/// A text whose second part and whose last one stand so many times, the second one each time with its number, from 1 on, in place of `#`.
#[derive(Clone, Copy)]
pub(crate) struct Long<'a> {
    pub(crate) head: &'a str,
    pub(crate) part: &'a str,
    pub(crate) middle: &'a str,
    pub(crate) end: &'a str,
    pub(crate) times: u32,
}

/// A text with nothing in it.
pub(crate) const NOTHING: Long<'_> = Long {
    head: "",
    part: "",
    middle: "",
    end: "",
    times: 0,
};

// Writes a part with its number.
fn push_part(text: &mut String, part: &str, number: u32) -> Result<(), AllocError> {
    for letter in part.chars() {
        if letter == '#' {
            write!(text, "{number}")?;
        } else {
            text.push(letter)?;
        }
    }
    Ok(())
}

/// A long text.
pub(crate) fn long_text(alloc: Global, long: &Long<'_>) -> Result<String, AllocError> {
    let mut text = String::from_str(alloc, long.head)?;
    let mut behind = String::from_str(alloc, long.middle)?;
    for number in 1..=long.times {
        push_part(&mut text, long.part, number)?;
        behind.push_str(long.end)?;
    }
    text.push_str(behind.as_str())?;
    Ok(text)
}
