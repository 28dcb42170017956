// Literals, names and nodes: what expressions are made of.
ghost use Rattle.std.specs.Prelude.{◌≡◌, ◌++◌, codes, OnOk};
ghost use Rattle.px_syntax.specs.ExprGrammar.{attribute_word};
ghost use Rattle.px_print.specs.Texts.{◌then◌};
ghost use Rattle.px_print.specs.ExprLayout.{literal_text, node_text, tolerance_text};

use crate::append::push_all;
use crate::word::attribute_word;
use itoa::Buffer;
use px_syntax::{Attribute, Identifier, Literal, NodeReference, Tolerance};
use px_value::NoMemory;

/// Appends a name.
pub(crate) fn push_name(name: &Identifier, out: &mut Vec<u8>) -> Result<(), NoMemory>
    ensures { OnOk result (out.new.items ≡ out.old.items ++ name.now.name) }
{
    push_all(out, &[name.name.as_str()])
}

/// Appends a literal, an integer in decimal and a string between quotes.
pub(crate) fn push_literal(value: &Literal, out: &mut Vec<u8>) -> Result<(), NoMemory>
    ensures { OnOk result (out.new.items ≡ out.old.items ++ literal_text value.now) }
{
    match value {
        Literal::Integer(number) => push_all(out, &[Buffer::new().format(*number)]),
        Literal::Boolean(true) => push_all(out, &["true"]),
        Literal::Boolean(false) => push_all(out, &["false"]),
        Literal::Text(content) => content.push_quoted(out),
    }
}

/// Appends what is read of a node.
pub(crate) fn push_attribute(
    node: &NodeReference,
    attribute: Attribute,
    out: &mut Vec<u8>,
) -> Result<(), NoMemory>
    ensures { OnOk result
        (out.new.items ≡ out.old.items ++ (node_text node.now then codes "." then attribute_word attribute)) }
{
    push_node(node, out)?;
    push_all(out, &[".", attribute_word(attribute)])
}

fn push_node(node: &NodeReference, out: &mut Vec<u8>) -> Result<(), NoMemory>
    ensures { OnOk result (out.new.items ≡ out.old.items ++ node_text node.now) }
{
    match node {
        NodeReference::Named(name) => push_name(name, out),
        NodeReference::SelfNode(_) => push_all(out, &["Self"]),
        NodeReference::Parent(_) => push_all(out, &["Parent"]),
        NodeReference::Sibling(_, name) => push_all(out, &["Sibling(", name.name.as_str(), ")"]),
        NodeReference::Child(_, name) => push_all(out, &["Child(", name.name.as_str(), ")"]),
    }
}

/// Appends the tolerance of a lookup behind a comma, where it has one.
pub(crate) fn push_tolerance(
    tolerance: Option<Tolerance>,
    out: &mut Vec<u8>,
) -> Result<(), NoMemory>
    ensures { OnOk result (out.new.items ≡ out.old.items ++ tolerance_text tolerance) }
{
    match tolerance {
        None => Ok(()),
        Some(tolerance) => push_all(out, &[", ", Buffer::new().format(tolerance.distance)]),
    }
}
