// Tokens that are tried in place of one that can't stand where it does.
use px_lex::{Token, lex};
use px_pen::Pen;
use px_plan_parse::parse;
use px_syntax::ParseFault;
use std::alloc::Global;

/// The tokens of a plan, or those up to one that can't stand there.
#[derive(Drop)]
pub struct Front {
    alloc: Global,
    tokens: Vec<Token>,
    // Whether memory has run out in a try; its answer is then worth nothing.
    has_failed: bool,
}

impl Front {
    /// All of these tokens.
    pub fn of(alloc: Global, tokens: Vec<Token>) -> Front {
        Front {
            alloc,
            tokens,
            has_failed: false,
        }
    }

    /// The tokens.
    pub fn tokens(&self) -> &[Token] {
        &self.tokens
    }

    /// Leaves this token away, and those behind it.
    pub fn end_before(&mut self, token: usize) {
        self.tokens.truncate(token);
    }

    /// Leaves the last token away.
    pub fn leave_last(&mut self) {
        self.tokens.truncate(self.tokens.len().saturating_sub(1));
    }

    /// Where memory has run out in a try, it counts in what is written of the tries.
    pub fn end_tries(&self, out: &mut Pen) {
        if self.has_failed {
            out.fail();
        }
    }

    /// Whether a plan goes on with what is spelled so, one token or none; with none, whether the tokens are a plan.
    pub fn takes(&mut self, spelling: &str) -> bool {
        match lex(self.alloc, spelling) {
            Ok(tokens) => self.goes_on_with(tokens),
            // It is spelled as the language has it, so memory alone can be missing.
            Err(_) => self.fails(),
        }
    }

    fn goes_on_with(&mut self, mut tokens: Vec<Token>) -> bool {
        let end = self.tokens.len();
        if self.tokens.append(&mut tokens).is_err() {
            return self.fails();
        }
        let goes_on = self.stands(end);
        self.tokens.truncate(end);
        goes_on
    }

    // Whether the token with this number can stand there: the tokens are a plan, or what is wrong comes behind it.
    fn stands(&mut self, place: usize) -> bool {
        match parse(self.alloc, &self.tokens) {
            Ok(tree) => {
                drop(tree);
                true
            }
            Err(ParseFault::SyntaxFault { token } | ParseFault::Deep { token }) => token > place,
            Err(ParseFault::NoMemory) => self.fails(),
        }
    }

    fn fails(&mut self) -> bool {
        self.has_failed = true;
        false
    }
}
