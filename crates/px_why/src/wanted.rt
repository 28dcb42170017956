// What may stand where a plan can't go on: each sort of token that the grammar takes there, by trying it.
use crate::candidates::Front;
use px_pen::Pen;
use std::alloc::Global;

/// A token as it is spelled, and how those of its sort are told.
type Sample = (&'static str, &'static str);

// Signs that are told by themselves, but for the semicolon.
const SIGNS: [Sample; 9] = [
    (",", "`,`"),
    (":", "`:`"),
    ("=", "`=`"),
    (".", "`.`"),
    (")", "`)`"),
    ("]", "`]`"),
    ("[", "`[`"),
    ("}", "`}`"),
    ("==", "an operator"),
];

// Values: of any kind, or literals alone.
const VALUES: [Sample; 2] = [
    ("isKnown", "an expression"),
    ("true", "a number, a String, `true` or `false`"),
];

// Types: any, or that of a loop's variable.
const TYPES: [Sample; 2] = [
    ("Boolean", "a type (`Integer`, `Boolean` or `String`)"),
    ("Integer", "`Integer`"),
];

// Names: any, or those of attributes.
const NAMES: [Sample; 2] = [
    ("x", "a name"),
    ("state", "`state`, `outcome`, `failure` or `command_handle`"),
];

// What is a part of what is told otherwise, where that is wanted.
const SMALLER: [Sample; 11] = [
    ("1", "a number"),
    ("\"\"", "a String"),
    ("(", "`(`"),
    ("#(", "`#(`"),
    ("{", "`{`"),
    ("elseif", "`elseif`"),
    ("else", "`else`"),
    ("endif", "`endif`"),
    ("NodeList", "`NodeList:`"),
    ("Lookup", "`Lookup`"),
    ("Command", "`Command`"),
];

/// What may stand somewhere, sort by sort.
#[derive(Drop)]
pub struct Wanted {
    /// All sorts but the last, in words.
    others: Pen,
    /// The last; empty where there is none yet.
    last: &'static str,
    /// Whether a semicolon is among them.
    pub semicolon: bool,
    /// Whether an action is among them.
    pub action: bool,
    /// Whether nothing is wanted any more.
    pub is_complete: bool,
}

impl Wanted {
    /// What may stand behind the front of a plan.
    pub fn behind(alloc: Global, front: &mut Front) -> Wanted {
        let mut wanted = Wanted {
            others: Pen::new(alloc),
            last: "",
            semicolon: false,
            action: false,
            is_complete: front.takes(""),
        };
        wanted.semicolon = wanted.add(";", "`;`", front);
        wanted.add_each(&SIGNS, front);
        let value = wanted.add_first(&VALUES, front);
        wanted.action = wanted.add("if", "an action", front);
        wanted.add("Start", "a condition", front);
        let block = wanted.action || wanted.add("Concurrence", "a block in `{ }`", front);
        wanted.add_first(&TYPES, front);
        if !value && !block {
            wanted.add_first(&NAMES, front);
            wanted.add_each(&SMALLER, front);
        }
        wanted
    }

    // Adds a sort if the token of this spelling is taken, and answers whether it is.
    fn add(&mut self, spelling: &str, sort: &'static str, front: &mut Front) -> bool {
        let is_taken = front.takes(spelling);
        if is_taken {
            if !self.others.is_empty() {
                self.others.push(", ");
            }
            self.others.push(self.last);
            self.last = sort;
        }
        is_taken
    }

    fn add_each(&mut self, samples: &[Sample], front: &mut Front) {
        for (spelling, sort) in samples {
            self.add(*spelling, *sort, front);
        }
    }

    // Adds the first sort whose token is taken, and answers whether there is one.
    fn add_first(&mut self, samples: &[Sample], front: &mut Front) -> bool {
        for (spelling, sort) in samples {
            if self.add(*spelling, *sort, front) {
                return true;
            }
        }
        false
    }

    /// Writes the sorts as one phrase.
    pub fn push_phrase(&self, out: &mut Pen) {
        out.append(&self.others);
        if !self.others.is_empty() {
            out.push(" or ");
        }
        out.push(self.last);
    }
}
