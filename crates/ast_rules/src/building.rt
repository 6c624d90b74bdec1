// The rules that a sentence writes, from its events.
ghost use Rattle.std.specs.Prelude.{◌≡◌, ◌<◌, ◌^◌, IfOk};
ghost use Rattle.rag_io.specs.Tokens.{seen_tokens};
ghost use Rattle.ast_rules.specs.Building.{after, component_added, component_after, head_after, rule_added};
ghost use Rattle.ast_rules.specs.Building.{last_name, name_at, seen_builder, written};
ghost use Rattle.ast_rules.specs.Written.{seen_name, seen_rules};

use crate::written::{Form, Name, WrittenComponent, WrittenRule};
use rag_io::{Memory, Place, Token};
use std::alloc::Global;
use std::mem;

// The event of a token, and those of the actions of the grammar.
const TOKEN: u8 = 255;

const ABSTRACT: u8 = 1;

const CONCRETE: u8 = 2;

const NAME: u8 = 3;

const SUPERCLASS: u8 = 4;

const WORD: u8 = 5;

const TYPE: u8 = 6;

const CHILD: u8 = 7;

const LIST: u8 = 8;

const OPTIONAL: u8 = 9;

const TOKEN_COMPONENT: u8 = 10;

const CLASS: u8 = 11;

// What is built behind some events: how many tokens were read, of the rule that is being read its head and its components, of the
// component that is being read its words, and the rules before.
#[derive(Drop)]
pub(crate) struct Builder<'a> {
    at: usize,
    is_abstract: bool,
    name: Name<'a>,
    superclass: Option<Name<'a>>,
    word: Name<'a>,
    type_name: Option<Name<'a>>,
    components: Vec<WrittenComponent<'a>>,
    rules: Vec<WrittenRule<'a>>,
}

// The name that the token of this number writes.
pub(crate) fn name_at<'a>(tokens: &[Token<'a>], number: usize) -> Name<'a>
    ensures { seen_name result ≡ name_at (seen_tokens tokens.now) number }
{
    match tokens.get(number) {
        Some(token) => Name {
            text: token.text,
            place: Place {
                line: token.line,
                column: token.column,
            },
        },
        None => Name {
            text: b"".as_slice(),
            place: Place { line: 1, column: 1 },
        },
    }
}

fn last_name<'a>(tokens: &[Token<'a>], b: &Builder<'a>) -> Name<'a>
    ensures { seen_name result ≡ last_name (seen_tokens tokens.now) (seen_builder b.now) }
{
    name_at(tokens, b.at.saturating_sub(1))
}

fn add_component(b: &mut Builder<'_>, form: Form) -> Result<(), Memory>
    ensures { IfOk result (λ u. seen_builder b.new ≡ component_added form (seen_builder b.old)) }
{
    let component = WrittenComponent {
        name: b.word,
        form,
        type_name: b.type_name,
    };
    b.components.push(component).map_err(|_| Memory)
}

fn add_rule(alloc: Global, b: &mut Builder<'_>) -> Result<(), Memory>
    ensures { IfOk result (λ u. seen_builder b.new ≡ rule_added (seen_builder b.old)) }
{
    let rule = WrittenRule {
        is_abstract: b.is_abstract,
        name: b.name,
        superclass: b.superclass,
        components: mem::replace(&mut b.components, Vec::new(alloc)),
    };
    b.rules.push(rule).map_err(|_| Memory)
}

// An action at the head of a rule.
fn act_on_head<'a>(tokens: &[Token<'a>], b: &mut Builder<'a>, event: u8)
    ensures { seen_builder b.new ≡ head_after (seen_tokens tokens.now) (seen_builder b.old) event }
{
    let last = last_name(tokens, b);
    match event {
        ABSTRACT => b.is_abstract = true,
        CONCRETE => b.is_abstract = false,
        NAME => {
            b.name = last;
            b.superclass = None;
        }
        SUPERCLASS => b.superclass = Some(last),
        _ => {}
    }
}

// An action in a component.
fn act_on_component<'a>(tokens: &[Token<'a>], b: &mut Builder<'a>, event: u8) -> Result<(), Memory>
    ensures { IfOk result (λ u. seen_builder b.new ≡ component_after (seen_tokens tokens.now) (seen_builder b.old) event) }
{
    let last = last_name(tokens, b);
    match event {
        WORD => {
            b.word = last;
            b.type_name = None;
        }
        TYPE => b.type_name = Some(last),
        CHILD => return add_component(b, Form::Child),
        LIST => return add_component(b, Form::List),
        OPTIONAL => return add_component(b, Form::Optional),
        TOKEN_COMPONENT => return add_component(b, Form::Token),
        _ => {}
    }
    Ok(())
}

fn act<'a>(
    alloc: Global,
    tokens: &[Token<'a>],
    b: &mut Builder<'a>,
    event: u8,
) -> Result<(), Memory>
    requires { b.old.at < 2 ^ 63 }
    ensures { IfOk result (λ u. seen_builder b.new ≡ after (seen_tokens tokens.now) (seen_builder b.old) event) }
{
    if event == TOKEN {
        b.at += 1;
        return Ok(());
    }
    if event == CLASS {
        return add_rule(alloc, b);
    }
    if event <= SUPERCLASS {
        act_on_head(tokens, b, event);
        return Ok(());
    }
    act_on_component(tokens, b, event)
}

// The rules that a sentence of these events writes.
pub(crate) fn build<'a>(
    alloc: Global,
    tokens: &[Token<'a>],
    events: &[u8],
) -> Result<Vec<WrittenRule<'a>>, Memory>
    ensures { IfOk result (λ v. seen_rules v.items ≡ written (seen_tokens tokens.now) events.now) }
{
    let first = name_at(tokens, 0);
    let mut b = Builder {
        at: 0,
        is_abstract: false,
        name: first,
        superclass: None,
        word: first,
        type_name: None,
        components: Vec::new(alloc),
        rules: Vec::new(alloc),
    };
    'acts: for (i, event) in events.iter().enumerate() {
        act(alloc, tokens, &mut b, *event)?;
    }
    Ok(b.rules)
}
