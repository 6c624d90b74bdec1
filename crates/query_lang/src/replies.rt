// The text of a value in a reply.
ghost use Rattle.std.specs.Prelude.{◌≡◌, ◌++◌, [], OnOk, codes, map};
ghost use Rattle.std.specs.Fmt.{decimal, signed_decimal};
ghost use Rattle.rag_io.specs.Quoting.{quoted};
ghost use Rattle.equation_law.specs.Codes.{AreElements, reference_of, value_of};
ghost use Rattle.equation_law.specs.Program.{text_of as text_in};
ghost use Rattle.equation_law.specs.Systems.{program_of};
ghost use Rattle.query_lang.specs.Named.{AddsReplyBy};
ghost use Rattle.query_lang.specs.Replies.{AddsReply, AddsText, in_braces, joined, truth_text};
ghost use Rattle.query_lang.specs.Singles.{element_text, reference_text, single_text};

use attr_rules::TextId;
use equation_law::{NodeRef, Single, System, Value};
use rag_io::{Memory, push_quoted};
use set_values::elements_in_order;
use std::alloc::Global;

fn add(text: &mut Vec<u8>, bytes: &[u8]) -> Result<(), Memory>
    ensures { OnOk result (text.new.items ≡ text.old.items ++ bytes.now) }
{
    text.extend_from_slice(bytes).map_err(|_| Memory)
}

fn add_truth(text: &mut Vec<u8>, truth: bool) -> Result<(), Memory>
    ensures { OnOk result (text.new.items ≡ text.old.items ++ truth_text truth) }
{
    if truth {
        add(text, b"true".as_slice())
    } else {
        add(text, b"false".as_slice())
    }
}

fn add_int(alloc: Global, text: &mut Vec<u8>, int: i32) -> Result<(), Memory>
    ensures { OnOk result (text.new.items ≡ text.old.items ++ signed_decimal int) }
{
    let digits = int.to_string(alloc).map_err(|_| Memory)?;
    add(text, digits.as_bytes())
}

// The text of a number; of a number that no text has, the empty one.
fn text_of(system: &System, number: TextId) -> &[u8]
    ensures { result.now ≡ text_in (program_of system.now) number.0 }
{
    if number.0 < system.pool().len() {
        system.pool().get(number.0)
    } else {
        &[]
    }
}

fn add_text(system: &System, text: &mut Vec<u8>, number: TextId) -> Result<(), Memory>
    ensures { OnOk result (text.new.items ≡ text.old.items ++ quoted (text_in (program_of system.now) number.0)) }
{
    push_quoted(text, text_of(system, number))
}

fn add_source(alloc: Global, text: &mut Vec<u8>, node: u32) -> Result<(), Memory>
    ensures { OnOk result (text.new.items ≡ text.old.items ++ (codes "@" ++ decimal node)) }
{
    let digits = node.to_string(alloc).map_err(|_| Memory)?;
    text.push(b'@').map_err(|_| Memory)?;
    add(text, digits.as_bytes())
}

fn add_node(alloc: Global, text: &mut Vec<u8>, node: NodeRef) -> Result<(), Memory>
    ensures { OnOk result (text.new.items ≡ text.old.items ++ reference_text (reference_of node.0)) }
{
    match node.source() {
        None => add(text, b"null".as_slice()),
        Some(k) => add_source(alloc, text, k),
    }
}

fn add_single(
    alloc: Global,
    system: &System,
    text: &mut Vec<u8>,
    single: Single,
) -> Result<(), Memory>
    ensures { OnOk result (text.new.items ≡ text.old.items ++ single_text (text_in (program_of system.now)) single) }
{
    match single {
        Single::Truth(truth) => add_truth(text, truth),
        Single::Int(int) => add_int(alloc, text, int),
        Single::Text(number) => add_text(system, text, number),
        Single::Node(node) => add_node(alloc, text, node),
    }
}

// An element of a set, behind a comma and a space where others stand before it.
fn add_element(
    alloc: Global,
    system: &System,
    text: &mut Vec<u8>,
    follows: bool,
    element: Single,
) -> Result<(), Memory>
    ensures { OnOk result (text.new.items ≡ text.old.items ++ element_text follows (single_text (text_in (program_of system.now)) element)) }
{
    if follows {
        add(text, b", ".as_slice())?;
    }
    add_single(alloc, system, text, element)
}

fn add_elements(
    alloc: Global,
    system: &System,
    text: &mut Vec<u8>,
    list: &[Single],
) -> Result<(), Memory>
    ensures { OnOk result (text.new.items ≡ text.old.items ++ joined (map (single_text (text_in (program_of system.now))) list.now)) }
{
    'elements: for i in 0..list.len() {
        add_element(alloc, system, text, i > 0, list[i])?;
    }
    Ok(())
}

fn add_set(
    alloc: Global,
    system: &System,
    text: &mut Vec<u8>,
    list: &[Single],
) -> Result<(), Memory>
    ensures { OnOk result (text.new.items ≡ text.old.items ++ in_braces (map (single_text (text_in (program_of system.now))) list.now)) }
{
    add(text, b"{".as_slice())?;
    add_elements(alloc, system, text, list)?;
    add(text, b"}".as_slice())
}

fn add_value(
    alloc: Global,
    system: &System,
    text: &mut Vec<u8>,
    value: &Value,
) -> Result<(), Memory>
    requires { AreElements (program_of system.now) value.now }
    ensures { OnOk result (AddsText (value_of (text_in (program_of system.now)) value.now) text.old.items text.new.items) }
{
    match value {
        Value::Truth(truth) => add_truth(text, *truth),
        Value::Int(int) => add_int(alloc, text, *int),
        Value::Text(number) => add_text(system, text, *number),
        Value::Node(node) => add_node(alloc, text, *node),
        Value::Texts(_) | Value::Nodes(_) => {
            let list = elements_in_order(alloc, system, value)?;
            add_set(alloc, system, text, &list)
        }
    }
}

/// Adds the text of a value and a line feed. After want of memory a part of it may have been added.
pub fn add_reply(
    alloc: Global,
    system: &System,
    text: &mut Vec<u8>,
    value: &Value,
) -> Result<(), Memory>
    requires { AreElements (program_of system.now) value.now }
    ensures sources { OnOk result (AddsReply (value_of (text_in (program_of system.now)) value.now) text.old.items text.new.items) }
    ensures named { OnOk result (AddsReplyBy (program_of system.now) value.now text.old.items text.new.items) }
{
    // A tree has at most as many nodes as there are codes of source nodes.
    prove!(system.tree().len() > 0);
    add_value(alloc, system, text, value)?;
    text.push(b'\n').map_err(|_| Memory)
}
