// The names that a tree declares: variables, nodes, commands and lookups.
use crate::nearest::Nearest;
use px_pen::Pen;
use px_syntax::{Block, Body, Branch, Declaration, Identifier, Item, Surface, TypeName};
use px_value::NoMemory;
use std::alloc::{AllocError, Global};

/// What a name can be declared as.
#[derive(Clone, Copy, PartialEq)]
pub enum Sort {
    Variable,
    Node,
    Command,
    Lookup,
}

/// A name that is declared.
#[derive(Clone, Copy)]
pub struct Declared<'a> {
    pub name: &'a str,
    /// The number of its token.
    pub token: usize,
    pub sort: Sort,
    /// How many arguments it takes.
    pub parameters: usize,
    /// The type of what it returns or gives.
    pub answer: Option<TypeName>,
    /// The number of the place, in which no two names of one sort are the same.
    pub place: usize,
}

/// The first name of this sort that is spelled so.
pub fn first_of<'a>(names: &'a [Declared<'a>], sort: Sort, name: &str) -> Option<&'a Declared<'a>> {
    for one in names {
        if one.sort == sort && one.name == name {
            return Some(one);
        }
    }
    None
}

/// The token of the first name that is of the same sort, spelling and place as the one at this token.
pub fn first_like(names: &[Declared<'_>], token: usize) -> usize {
    let Some(other) = declared_at(names, token) else {
        return token;
    };
    for one in names {
        if one.place == other.place && one.sort == other.sort && one.name == other.name {
            return one.token;
        }
    }
    token
}

fn declared_at<'a>(names: &'a [Declared<'a>], token: usize) -> Option<&'a Declared<'a>> {
    for one in names {
        if one.token == token {
            return Some(one);
        }
    }
    None
}

/// The name of this sort that is nearest to one that is written, if one is near.
pub fn nearest_declared<'a>(
    alloc: Global,
    names: &'a [Declared<'a>],
    sort: Sort,
    name: &'a str,
    out: &mut Pen,
) -> Option<&'a str> {
    let mut nearest = Nearest::to(name);
    for one in names {
        if one.sort == sort {
            nearest.look_at(alloc, one.name);
        }
    }
    nearest.found(out)
}

/// The names, in the order in which a walk from the declarations to the root's last action comes to them.
#[derive(Drop)]
struct Names<'a> {
    list: Vec<Declared<'a>>,
    places: usize,
    // Whether memory has run out, so that names are missing.
    has_failed: bool,
}

/// All names that a tree declares.
pub fn names_in(alloc: Global, tree: &Surface) -> Result<Vec<Declared<'_>>, NoMemory> {
    let mut names = Names {
        list: Vec::new(alloc),
        places: 0,
        has_failed: false,
    };
    names.globals(&tree.declarations);
    let place = names.new_place();
    names.label(&tree.label, place);
    names.block(&tree.root);
    let Names {
        list,
        has_failed,
        ..
    } = names;
    if has_failed {
        Err(AllocError)
    } else {
        Ok(list)
    }
}

impl<'a> Names<'a> {
    fn new_place(&mut self) -> usize {
        self.places = self.places.saturating_add(1);
        self.places
    }

    fn add(
        &mut self,
        sort: Sort,
        identifier: &'a Identifier,
        parameters: usize,
        answer: Option<TypeName>,
        place: usize,
    ) {
        if !self.has_failed {
            let declared = Declared {
                name: identifier.name.as_str(),
                token: identifier.token,
                sort,
                parameters,
                answer,
                place,
            };
            self.has_failed = self.list.push(declared).is_err();
        }
    }

    fn globals(&mut self, declarations: &'a [Declaration]) {
        let place = self.new_place();
        for declaration in declarations {
            match declaration {
                Declaration::Command {
                    answer,
                    name,
                    parameters,
                } => self.add(Sort::Command, name, parameters.len(), *answer, place),
                Declaration::Lookup {
                    answer,
                    name,
                    parameters,
                } => self.add(Sort::Lookup, name, parameters.len(), Some(*answer), place),
            }
        }
    }

    // Adds a variable or a node.
    fn add_plain(&mut self, sort: Sort, identifier: &'a Identifier, place: usize) {
        self.add(sort, identifier, 0, None, place);
    }

    fn label(&mut self, label: &'a Option<Identifier>, place: usize) {
        if let Some(identifier) = label {
            self.add_plain(Sort::Node, identifier, place);
        }
    }

    fn items(&mut self, items: &'a [Item], place: usize) {
        for item in items {
            if let Item::Variables { variables, .. } = item {
                for variable in variables {
                    self.add_plain(Sort::Variable, &variable.name, place);
                }
            }
        }
    }

    #[cycle(names)]
    fn block(&mut self, block: &'a Block) {
        let place = self.new_place();
        self.items(&block.items, place);
        for action in &block.actions {
            self.label(&action.label, place);
            self.body(&action.body);
        }
    }

    #[cycle(names)]
    fn body(&mut self, body: &'a Body) {
        let place = self.new_place();
        match body {
            Body::Block(block) => self.block(block),
            Body::If {
                first,
                others,
                otherwise,
            } => {
                self.branch(&first.branch, place);
                for guarded in others {
                    self.branch(&guarded.branch, place);
                }
                if let Some(branch) = otherwise {
                    self.branch(branch, place);
                }
            }
            Body::While(guarded) => self.branch(&guarded.branch, place),
            Body::For {
                variable,
                branch,
                ..
            } => {
                self.add_plain(Sort::Variable, variable, place);
                self.branch(branch, place)
            }
            Body::Assign { .. } | Body::CallInto { .. } | Body::Call(_) | Body::Update { .. } => {}
        }
    }

    #[cycle(names)]
    fn branch(&mut self, branch: &'a Branch, place: usize) {
        self.label(&branch.label, place);
        self.block(&branch.block)
    }
}
