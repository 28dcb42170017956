// The faults of a tree in words, by their kinds.
use crate::declared::{Declared, Sort, first_like, first_of};
use crate::misfit::{misused, push_misfit, push_no_result};
use crate::report::{Told, Words};
use crate::seen::{Seen, keyword_at, kind_at, name_at, sign_at};
use px_check::Spot;
use px_lex::{Keyword, Sign, Token, TokenKind};
use px_pen::Pen;
use px_syntax::FaultKind;
use std::alloc::Global;

impl<'a> Seen<'a> {
    /// Says what a fault is.
    pub fn explain(&self, alloc: Global, spot: Spot, words: &mut Words) {
        let tokens = self.tokens;
        let token = spot.token;
        let name = name_at(tokens, token);
        match spot.kind {
            FaultKind::Undeclared => self.undeclared(alloc, name, words),
            FaultKind::NoSuchNode => self.no_such_node(alloc, token, words),
            FaultKind::Redeclared => self.redeclared(token, words),
            FaultKind::TypeDiffers => match spot.misfit {
                Some(misfit) => push_misfit(tokens, token, misfit, words),
                None => self.misuse(token, words),
            },
            FaultKind::ArgCount => self.arguments(token, words),
            FaultKind::NotAssignable => words.tell(name, not_assignable(tokens, token)),
            FaultKind::DoubleCondition => words.tell(name, doubled(tokens, token)),
            FaultKind::TooLarge => words.tell(name, too_large(tokens, token)),
        }
    }

    fn redeclared(&self, token: usize, words: &mut Words) {
        let first = self.place(first_like(self.names, token));
        words.message.fill(
            "`{}` is declared a second time in one place",
            name_at(self.tokens, token),
        );
        words.help.fill_each(
            "it stands in line {} already: give one of the two another name",
            &[first.line],
        );
    }

    // Of a command whose result is put into a variable, or of something else that stands where nothing of its sort may.
    fn misuse(&self, token: usize, words: &mut Words) {
        let name = name_at(self.tokens, token);
        match sign_at(self.tokens, token.saturating_add(1)) {
            Some(Sign::OpenParen) => push_no_result(self.names, name, words),
            next => words.tell(name, misused(self.tokens, token, next)),
        }
    }

    fn arguments(&self, token: usize, words: &mut Words) {
        let name = name_at(self.tokens, token);
        // A lookup's name stands behind a parenthesis, that of its `Lookup`; a command's never does.
        let sort = match sign_at(self.tokens, token.saturating_sub(1)) {
            Some(Sign::OpenParen) => Sort::Lookup,
            _ => Sort::Command,
        };
        words
            .help
            .push("give it as many, or change its declaration");
        words.message.fill("`{}` ", name);
        match first_of(self.names, sort, name) {
            Some(declared) => self.push_count(declared, &mut words.message),
            None => words
                .message
                .push("is declared with another number of arguments"),
        }
    }

    fn push_count(&self, declared: &Declared<'_>, message: &mut Pen) {
        match declared.parameters {
            0 => message.push("takes no argument"),
            1 => message.push("takes 1 argument"),
            count => message.fill_each("takes {} arguments", &[count]),
        }
        let line = self.place(declared.token).line;
        message.fill_each(", by its declaration in line {}", &[line]);
    }
}

fn not_assignable(tokens: &[Token], token: usize) -> Told {
    match sign_at(tokens, token.saturating_add(1)) {
        Some(Sign::OpenBracket) => (
            "`{}` is no array, and has no elements to write",
            "leave the index away: `{} = ..`",
        ),
        _ => (
            "`{}` is an array, which isn't written as a whole",
            "write its elements one by one, as `{}[0] = ..`",
        ),
    }
}

fn doubled(tokens: &[Token], token: usize) -> Told {
    match keyword_at(tokens, token) {
        Some(Keyword::Priority) => (
            "this block has a Priority already",
            "leave one of the two away",
        ),
        _ => (
            "this block has the same condition already",
            "join the two by `&&` or `||` in one condition",
        ),
    }
}

fn too_large(tokens: &[Token], token: usize) -> Told {
    match kind_at(tokens, token) {
        Some(TokenKind::Identifier(_)) => named_too_large(tokens, token),
        Some(TokenKind::Integer(_)) => (
            "this plan has 16 other tolerances already",
            "let lookups share a tolerance where they can",
        ),
        _ => (
            "this update has over 8 values",
            "tell the others in a second `Update`",
        ),
    }
}

fn named_too_large(tokens: &[Token], token: usize) -> Told {
    if sign_at(tokens, token.saturating_add(1)) != Some(Sign::OpenParen) {
        return (
            "`{}` is too large",
            "an array has 1 to 256 elements, at most as many initial values, and all variables of a plan together at most 65,536 elements",
        );
    }
    match keyword_at(tokens, token.saturating_sub(1)) {
        Some(Keyword::Command | Keyword::Lookup) => {
            ("`{}` is declared with over 8 parameters", "")
        }
        _ => ("`{}` has over 8 arguments", ""),
    }
}
