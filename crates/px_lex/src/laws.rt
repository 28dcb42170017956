// What the definitions of tables, faults and splittings mean, as clauses of functions that do nothing.
ghost use Rattle.std.specs.Prelude.{◌≡◌, ◌≢◌, ℕ, List, map, Option};
ghost use Rattle.std.specs.List.{range_with_len};
ghost use Rattle.px_lex.specs.Keyword.{keyword_rows};
ghost use Rattle.px_lex.specs.Sign.{sign_rows};
ghost use Rattle.px_lex.specs.Table.{of_length};
ghost use Rattle.px_lex.specs.Lexer.{Begins, IsFault, Splits, FirstFault};
ghost use Rattle.px_lex.specs.declared.fault.LexFault.{LexFault};
ghost use Rattle.px_lex.specs.declared.keyword.TheConstants.{KEYWORDS};
ghost use Rattle.px_lex.specs.declared.sign.TheConstants.{SIGNS};
ghost use Rattle.px_lex.specs.declared.token.TokenKind.{TokenKind as Kind};
ghost use Rattle.px_lex.specs.declared.token.Token.{Token};

use crate::fault::LexFault;

/// The tables of the code are those of the definitions, row by row.
pub fn tables()
    ensures keywords { map (λ rows. map (λ row. (row.0.now, row.1)) rows.now) KEYWORDS
        ≡ map (of_length keyword_rows) (range_with_len 0 27) }
    ensures signs { map (λ row. (row.0.now, row.1)) SIGNS ≡ sign_rows }
{}

/// Where a fault stands neither a gap nor a token begins.
pub fn no_piece(text: &str)
    ensures { (fault : LexFault) (place : ℕ) (kind : Option Kind) (rest : List ℕ) → fault ≢ LexFault.NoMemory
        → IsFault fault place text.now → Begins kind text.now rest → ⊥ }
{}

/// No text splits in two ways; none that splits is at fault; and no text has two first faults.
pub fn one_answer(text: &str)
    ensures one_way { (a b : List Token) → Splits text.now a → Splits text.now b → a ≡ b }
    ensures no_fault { (tokens : List Token) (fault : LexFault) → fault ≢ LexFault.NoMemory
        → Splits text.now tokens → FirstFault text.now fault → ⊥ }
    ensures one_fault { (f g : LexFault) → f ≢ LexFault.NoMemory → g ≢ LexFault.NoMemory
        → FirstFault text.now f → FirstFault text.now g → f ≡ g }
{}
