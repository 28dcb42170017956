// Names of variables and nodes that aren't there.
use crate::declared::{Declared, Sort, first_of, nearest_declared};
use crate::nearest::push_meant;
use crate::report::Words;
use crate::seen::{Seen, keyword_at, name_at, sign_at};
use crate::spellings::value_meant;
use px_lex::{Keyword, Sign, Token};
use px_pen::Pen;
use std::alloc::Global;

impl<'a> Seen<'a> {
    /// Says of a variable that it isn't declared.
    pub fn undeclared(&self, alloc: Global, name: &str, words: &mut Words) {
        words
            .message
            .fill("no variable `{}` is declared here", name);
        match first_of(self.names, Sort::Variable, name) {
            Some(other) => self.push_other(
                other,
                "{} is seen in its own block alone: declare it in a block round both places",
                &mut words.help,
            ),
            None => push_variable_meant(alloc, self.names, name, &mut words.help),
        }
    }

    // Writes where a name is declared, and why it isn't that one.
    fn push_other(&self, other: &Declared<'_>, why: &str, help: &mut Pen) {
        help.fill("the `{}` of line ", other.name);
        help.fill_each(why, &[self.place(other.token).line]);
    }

    /// Says of a node that it isn't there, or that it is no command where its handle is asked for.
    pub fn no_such_node(&self, alloc: Global, token: usize, words: &mut Words) {
        let asks_for_handle = asks_for_handle(self.tokens, token);
        match keyword_at(self.tokens, token) {
            Some(keyword) => words.message.push(no_related(keyword, asks_for_handle)),
            None => self.no_named_node(alloc, token, asks_for_handle, words),
        }
    }

    fn no_named_node(&self, alloc: Global, token: usize, asks_for_handle: bool, words: &mut Words) {
        let name = name_at(self.tokens, token);
        match first_of(self.names, Sort::Node, name) {
            Some(_) if asks_for_handle => words.say_of(
                name,
                "`{}` is no command here, and has no `command_handle`",
                "only a node that is one command has one; `{}.state` and `{}.outcome` every node has",
            ),
            Some(other) => {
                words.message.fill(NO_NODE, name);
                self.push_other(
                    other,
                    "{} stands elsewhere: a node sees its children, itself, and the nodes round it with their children",
                    &mut words.help,
                );
            }
            None => {
                words.message.fill(NO_NODE, name);
                push_node_meant(alloc, self.names, name, &mut words.help);
            }
        }
    }
}

const NO_NODE: &str = "no node `{}` is seen from here";

fn push_variable_meant(alloc: Global, names: &[Declared<'_>], name: &str, help: &mut Pen) {
    if first_of(names, Sort::Lookup, name).is_some() {
        return help.fill("`{}` is a state of the outside: write `Lookup({})`", name);
    }
    match nearest_declared(alloc, names, Sort::Variable, name, help) {
        Some(near) => push_meant(near, help),
        None => push_other_meant(alloc, names, name, help),
    }
}

// What is meant by the name of no variable that is near to none either.
fn push_other_meant(alloc: Global, names: &[Declared<'_>], name: &str, help: &mut Pen) {
    match value_meant(alloc, name, help) {
        Some(value) => push_meant(value, help),
        None if first_of(names, Sort::Node, name).is_some() => {
            help.fill("`{}` is a node: write `{}.state` or `{}.outcome`", name)
        }
        None => help.fill(
            "declare it in this block or in one round it, as in `Integer {};`; a state of the outside is read by `Lookup({})`",
            name,
        ),
    }
}

fn push_node_meant(alloc: Global, names: &[Declared<'_>], name: &str, help: &mut Pen) {
    match nearest_declared(alloc, names, Sort::Node, name, help) {
        Some(near) => push_meant(near, help),
        None => help.fill("give the node that is meant the label `{}:`", name),
    }
}

// Whether the node's attribute is `command_handle`: behind a dot, within the next tokens.
fn asks_for_handle(tokens: &[Token], token: usize) -> bool {
    let dot = match sign_at(tokens, token.saturating_add(1)) {
        Some(Sign::OpenParen) => token.saturating_add(4),
        _ => token.saturating_add(1),
    };
    name_at(tokens, dot.saturating_add(1)) == "command_handle"
}

// Of a node that is named by how it is related.
fn no_related(keyword: Keyword, asks_for_handle: bool) -> &'static str {
    match keyword {
        Keyword::Parent | Keyword::Sibling if !asks_for_handle => {
            "there is no such node: the root has no parent and no siblings, and a sibling needs the name of one"
        }
        Keyword::Child if !asks_for_handle => "this node has no child of that name",
        _ => {
            "there is no such command here: only a node that is one command has a `command_handle`"
        }
    }
}
