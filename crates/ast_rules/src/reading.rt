// The reader of the rules of `.ast` files.
ghost use Rattle.std.specs.Prelude.{◌≡◌, ◌<◌, ◌↔◌, IfOk, IsTrue, length, map};
ghost use Rattle.rag_io.specs.Tokens.{AreTokens, seen_tokens};
ghost use Rattle.ll_parser.specs.Sentences.{FirstFault};
ghost use Rattle.ast_rules.specs.AstPrintedGrammar.{ast_printed_grammar};
ghost use Rattle.ast_rules.specs.Members.{Rises};
ghost use Rattle.ast_rules.specs.Reading.{AreNamed, BeginsComponent, IsSyntaxFault, ReadsRules, SyntaxRule, optional_behind};
ghost use Rattle.ast_rules.specs.Tokens.{token_class};
ghost use Rattle.ast_rules.specs.Written.{seen_rules};

use crate::building::{build, name_at};
use crate::language::{AstLanguage, END, OPTIONAL};
use crate::written::WrittenRule;
use broken_rules::{Broken, ReadFault, Rule};
use ll_parser::ParseFault;
use rag_io::{Memory, Token};
use sentences::{classes_of, parse_classes, parse_tokens};
use std::alloc::Global;

// Some tokens, an optional's sign and the end, by their classes.
fn optional_behind(alloc: Global, classes: &[u8]) -> Result<Vec<u8>, Memory>
    ensures { IfOk result (λ v. v.items ≡ optional_behind classes.now) }
{
    let mut behind = Vec::from_slice(alloc, classes).map_err(|_| Memory)?;
    behind.push(OPTIONAL).map_err(|_| Memory)?;
    behind.push(END).map_err(|_| Memory)?;
    Ok(behind)
}

// Whether a component may begin behind some tokens, by their classes: an optional could stand there.
fn begins_component(alloc: Global, classes: &[u8]) -> Result<bool, Memory>
    ensures { IfOk result (λ begins. IsTrue begins ↔ BeginsComponent classes.now) }
{
    let behind = optional_behind(alloc, classes)?;
    let mut events = Vec::new(alloc);
    match parse_classes(alloc, &AstLanguage, &behind, &mut events) {
        Ok(()) => Ok(true),
        Err(ParseFault::At(fault)) => Ok(classes.len() < fault),
        Err(ParseFault::OutOfMemory) => Err(Memory),
    }
}

// The rule that a syntax fault breaks at the token of this number.
fn syntax_rule(alloc: Global, tokens: &[Token<'_>], number: usize) -> Result<Rule, Memory>
    requires { number < length tokens.now }
    ensures { IfOk result (λ rule. SyntaxRule (seen_tokens tokens.now) number rule) }
{
    if name_at(tokens, number).text != b"/".as_slice() {
        return Ok(Rule::G1);
    }
    let before = classes_of(alloc, &AstLanguage, &tokens[..number])?;
    if begins_component(alloc, &before)? {
        Ok(Rule::G9)
    } else {
        Ok(Rule::G1)
    }
}

// The rule that is broken at the token of this number, with which the tokens begin no sentence.
fn syntax_fault(alloc: Global, tokens: &[Token<'_>], number: usize) -> Result<Broken, Memory>
    requires { FirstFault ast_printed_grammar 0 (map token_class (seen_tokens tokens.now)) number }
    ensures { IfOk result (λ broken. IsSyntaxFault (seen_tokens tokens.now) broken) }
{
    let rule = syntax_rule(alloc, tokens, number)?;
    let place = name_at(tokens, number).place;
    Ok(Broken { place, rule })
}

/// The rules that the tokens say, whose places rise, or the broken rule where they aren't in the form of an `.ast` file: G1 or G9 at the
/// first token such that the tokens up to it begin no sentence. G9 stands at a `/` where a component may begin, since `/X/` is a form of
/// the JastAdd2 manual that this profile leaves out.
pub fn read_rules<'a>(
    alloc: Global,
    tokens: &[Token<'a>],
) -> Result<Vec<WrittenRule<'a>>, ReadFault>
    requires { AreTokens (seen_tokens tokens.now) }
    ensures says { ReadsRules (seen_tokens tokens.now) result }
    ensures rises { IfOk result (λ rules. Rises (seen_rules rules.items)) }
    ensures words { IfOk result (λ rules. AreNamed (seen_rules rules.items)) }
{
    let mut events = Vec::new(alloc);
    match parse_tokens(alloc, &AstLanguage, tokens, &mut events) {
        Ok(()) => Ok(build(alloc, tokens, &events)?),
        Err(ParseFault::At(number)) => {
            let broken = syntax_fault(alloc, tokens, number)?;
            Err(ReadFault::Broken(broken))
        }
        Err(ParseFault::OutOfMemory) => Err(ReadFault::Memory),
    }
}
