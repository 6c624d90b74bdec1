// From the bytes of the files to what they say.
ghost use Rattle.std.specs.Prelude.{◌≡◌, ◌≤◌, length, Ok, IfOk, IfErr};
ghost use Rattle.std.specs.List.{count_by};
ghost use Rattle.ast_grammar.specs.Grammar.{superclasses_of};
ghost use Rattle.rag_io.specs.Outside.{longest_file};
ghost use Rattle.attr_equations.specs.Kept.{rules_in};
ghost use Rattle.equation_law.specs.Systems.{program_of};
ghost use Rattle.aspect_items.specs.Items.{seen_aspects};
ghost use Rattle.program_reader.specs.declared.files.Refusal.TheVariants.{Memory as NoMemory};
ghost use Rattle.program_reader.specs.Unread.{unread_for};
ghost use Rattle.program_reader.specs.Built.{AnswersAsked, AnswersChecked, AnswersRules, BreaksFile, Refuses, IsRefusal, IsCheckRefusal, IsTreeRefusal, is_contributed};
ghost use Rattle.program_reader.specs.Steps.{AnswersAspectRules, RefusesTreeOrQueries, SaysRead};
ghost use Rattle.run_io.specs.Fetched.{seen_contents, seen_pair, AreShort, AreBothShort};
ghost use Rattle.program_reader.specs.Files.{SaysCounts, SaysProgram, SaysText, counts_of, line_of, no_texts};

use crate::queries::read_queries;
use aspect_items::{Aspects, Item};
use ast_grammar::{Grammar, read_ast_bytes};
use attr_equations::Rules;
use attr_types::check;
use broken_rules::{Broken, ReadFault};
use built_forms::built;
use equation_law::{Queries, System};
use jrag_reader::read_jrag_bytes;
use monotone_check::check_monotone;
use rag_io::{Memory, Pool};
use run_io::{Contents, FileKind, PairContents};
use std::alloc::Global;
use tree_arena::Tree;
use tree_reader::read_tree_bytes;
use tree_writer::write_tree;

/// Why a file was not read.
#[derive(Clone, Copy, Debug, PartialEq, Eq)]
pub enum Unread {
    /// It breaks a rule, and this is the first one.
    Broken(Broken),
    /// It isn't in the form that is evaluated so far.
    NotBuilt,
    /// Want of memory.
    Memory,
}

impl From<ReadFault> for Unread {
    ghost from_gives = { λ fault unread. unread ≡ unread_for fault };

    fn from(fault: ReadFault) -> Unread {
        match fault {
            ReadFault::Broken(broken) => Unread::Broken(broken),
            ReadFault::Memory => Unread::Memory,
        }
    }
}

/// Why nothing is said: the first file in the order of the command that is refused.
#[derive(Clone, Copy, Debug, PartialEq, Eq)]
pub enum Refusal {
    /// It breaks a rule, and this is the first one.
    Broken(FileKind, Broken),
    /// It isn't in the form that is evaluated so far.
    NotBuilt(FileKind),
    /// Want of memory.
    Memory,
}

impl From<Memory> for Refusal {
    ghost from_gives = { λ _ refusal. refusal ≡ NoMemory };

    fn from(_: Memory) -> Refusal {
        Refusal::Memory
    }
}

fn refusal_of(file: FileKind, unread: Unread) -> Refusal
    ensures { Refuses file unread result }
{
    match unread {
        Unread::Broken(broken) => Refusal::Broken(file, broken),
        Unread::NotBuilt => Refusal::NotBuilt(file),
        Unread::Memory => Refusal::Memory,
    }
}

// The rules of the aspects, where they break no rule over the grammar. Those on rising equations are tested last.
fn check_rules(alloc: Global, grammar: &Grammar, aspects: &Aspects) -> Result<Rules, ReadFault>
    ensures { AnswersChecked grammar.now (seen_aspects aspects.now) result }
{
    let rules = check(alloc, grammar, aspects)?;
    match check_monotone(&rules) {
        Ok(()) => Ok(rules),
        Err(broken) => Err(ReadFault::Broken(broken)),
    }
}

// The same, where all of their items are evaluated so far.
fn read_rules(alloc: Global, grammar: &Grammar, aspects: &Aspects) -> Result<Rules, Unread>
    ensures { AnswersRules grammar.now (seen_aspects aspects.now) result }
{
    if !built(aspects) {
        return Err(Unread::NotBuilt);
    }
    Ok(check_rules(alloc, grammar, aspects)?)
}

fn read_asked(
    alloc: Global,
    grammar: &Grammar,
    rules: &Rules,
    tree: &Tree,
    bytes: &[u8],
) -> Result<Option<Queries>, Memory>
    requires short { length bytes.now ≤ longest_file }
    requires classes { (rules_in rules.now).superclasses ≡ superclasses_of grammar.now }
    ensures { AnswersAsked grammar.now (rules_in rules.now) tree.now bytes.now result }
{
    let list = read_queries(alloc, grammar, rules, tree, bytes)?;
    Ok(list.map(|list| Queries::new(list)))
}

// The pool before the first file is read.
fn no_texts(alloc: Global) -> Result<Pool, Refusal>
    ensures said { IfOk result (λ pool. pool ≡ no_texts) }
    ensures refused { IfErr result (λ refusal. refusal ≡ Refusal.Memory) }
{
    Ok(Pool::new(alloc)?)
}

// The refusal of a file that breaks a rule, or of none for want of memory.
fn broken_file(file: FileKind, fault: ReadFault) -> Refusal
    ensures { BreaksFile file fault result }
{
    match fault {
        ReadFault::Broken(broken) => Refusal::Broken(file, broken),
        ReadFault::Memory => Refusal::Memory,
    }
}

// The rules of the aspects that some bytes say over a grammar. The aspects themselves aren't needed any more then.
fn read_aspects(
    alloc: Global,
    grammar: &Grammar,
    bytes: &[u8],
    pool: &mut Pool,
) -> Result<Rules, Unread>
    requires { length bytes.now ≤ longest_file }
    ensures { AnswersAspectRules grammar.now pool.old bytes.now pool.new result }
{
    let aspects = read_jrag_bytes(alloc, bytes, pool)?;
    read_rules(alloc, grammar, &aspects)
}

// The tree that the third file says, and the queries that the last one asks there.
fn read_tree_and_queries(
    alloc: Global,
    grammar: &Grammar,
    rules: &Rules,
    contents: &Contents,
    pool: &mut Pool,
) -> Result<(Tree, Queries), Refusal>
    requires short { AreShort (seen_contents contents.now) }
    requires classes { (rules_in rules.now).superclasses ≡ superclasses_of grammar.now }
    ensures said { IfOk result (SaysRead grammar.now (rules_in rules.now) pool.old (seen_contents contents.now) pool.new) }
    ensures refused { IfErr result (λ refusal. RefusesTreeOrQueries grammar.now (rules_in rules.now) pool.old (seen_contents contents.now) refusal) }
{
    let tree = match read_tree_bytes(alloc, grammar, &contents.tree, pool) {
        Ok(tree) => tree,
        Err(fault) => return Err(broken_file(FileKind::Tree, fault)),
    };
    match read_asked(alloc, grammar, rules, &tree, &contents.queries)? {
        Some(queries) => Ok((tree, queries)),
        None => Err(Refusal::NotBuilt(FileKind::Queries)),
    }
}

/// The system that the four files say, tested in the order of the command.
pub fn read_system(alloc: Global, contents: &Contents) -> Result<System, Refusal>
    requires { AreShort (seen_contents contents.now) }
    ensures said { IfOk result (λ system. SaysProgram (seen_contents contents.now) (program_of system)) }
    ensures refused { IfErr result (λ refusal. IsRefusal (seen_contents contents.now) refusal) }
{
    let mut pool = no_texts(alloc)?;
    let grammar = match read_ast_bytes(alloc, &contents.ast) {
        Ok(grammar) => grammar,
        Err(fault) => return Err(broken_file(FileKind::Ast, fault)),
    };
    let rules = match read_aspects(alloc, &grammar, &contents.jrag, &mut pool) {
        Ok(rules) => rules,
        Err(unread) => return Err(refusal_of(FileKind::Jrag, unread)),
    };
    let (tree, queries) = read_tree_and_queries(alloc, &grammar, &rules, contents, &mut pool)?;
    Ok(System::new(alloc, grammar, rules, tree, pool, queries)?)
}

// A text that is said, or want of memory for it.
fn or_refused(text: Result<Vec<u8>, Memory>) -> Result<Vec<u8>, Refusal>
    ensures said { IfOk result (λ given. text ≡ Ok given) }
    ensures refused { IfErr result (λ refusal. refusal ≡ NoMemory) }
{
    Ok(text?)
}

/// The canonical text of the tree that a grammar and a tree file say, tested in this order.
pub fn tree_text(alloc: Global, contents: &PairContents) -> Result<Vec<u8>, Refusal>
    requires { AreBothShort (seen_pair contents.now) }
    ensures said { IfOk result (λ text. SaysText (seen_pair contents.now) text.items) }
    ensures refused { IfErr result (λ refusal. IsTreeRefusal (seen_pair contents.now) refusal) }
{
    let mut pool = no_texts(alloc)?;
    let grammar = match read_ast_bytes(alloc, &contents.ast) {
        Ok(grammar) => grammar,
        Err(fault) => return Err(broken_file(FileKind::Ast, fault)),
    };
    let tree = match read_tree_bytes(alloc, &grammar, &contents.other, &mut pool) {
        Ok(tree) => tree,
        Err(fault) => return Err(broken_file(FileKind::Tree, fault)),
    };
    or_refused(write_tree(alloc, &grammar, &tree, &pool))
}

#[tactic(auto, unfolding(crate::specs::Built::is_contributed))]
fn is_contribution(item: &Item) -> bool
    ensures { result ≡ is_contributed item.now }
{
    matches!(item, Item::Contribution(_))
}

// How many contributions there are among some items.
fn contributions(items: &[Item]) -> usize
    ensures { result ≡ count_by is_contributed items.now }
{
    let mut count = 0;
    for item in items {
        if is_contribution(item) {
            count += 1;
        }
    }
    count
}

// How many there are of what aspects declare.
#[derive(Clone, Copy)]
struct Counts {
    classes: u32,
    attributes: u32,
    equations: u32,
    contributions: usize,
}

// The line of counts.
fn line_of(alloc: Global, counts: Counts) -> Result<Vec<u8>, Memory>
    ensures { IfOk result (λ text. text.items ≡ line_of counts) }
{
    let Counts {
        classes,
        attributes,
        equations,
        contributions,
    } = counts;
    match format!(in alloc;
        "ok: {classes} classes, {attributes} attributes, {equations} equations, {contributions} contributions\n"
    ) {
        Ok(line) => Ok(line.into_bytes()),
        Err(_) => Err(Memory),
    }
}

fn counted(grammar: &Grammar, rules: &Rules, aspects: &Aspects) -> Counts
    ensures { line_of result ≡ counts_of grammar.now (rules_in rules.now) (seen_aspects aspects.now) }
{
    Counts {
        classes: grammar.classes(),
        attributes: rules.attrs(),
        equations: rules.equations(),
        contributions: contributions(&aspects.items),
    }
}

/// The counts of a grammar and of aspects that break no rule, tested in this order.
pub fn counts_text(alloc: Global, contents: &PairContents) -> Result<Vec<u8>, Refusal>
    requires { AreBothShort (seen_pair contents.now) }
    ensures said { IfOk result (λ text. SaysCounts (seen_pair contents.now) text.items) }
    ensures refused { IfErr result (λ refusal. IsCheckRefusal (seen_pair contents.now) refusal) }
{
    let mut pool = no_texts(alloc)?;
    let grammar = match read_ast_bytes(alloc, &contents.ast) {
        Ok(grammar) => grammar,
        Err(fault) => return Err(broken_file(FileKind::Ast, fault)),
    };
    let aspects = match read_jrag_bytes(alloc, &contents.other, &mut pool) {
        Ok(aspects) => aspects,
        Err(fault) => return Err(broken_file(FileKind::Jrag, fault)),
    };
    let counts = match check_rules(alloc, &grammar, &aspects) {
        Ok(rules) => counted(&grammar, &rules, &aspects),
        Err(fault) => return Err(broken_file(FileKind::Jrag, fault)),
    };
    or_refused(line_of(alloc, counts))
}
