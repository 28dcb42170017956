// What the layout of a tree is read as.
ghost use Rattle.std.specs.Prelude.{◌≡◌, true, List, []};
ghost use Rattle.std.specs.Str.{is_utf8};
ghost use Rattle.px_lex.specs.Lexer.{Splits};
ghost use Rattle.px_lex.specs.declared.token.Token.{Token as AnyToken};
ghost use Rattle.px_syntax.specs.Depth.{too_deep};
ghost use Rattle.px_syntax.specs.Plan.{tree_of_surface};
ghost use Rattle.px_print.specs.Layout.{layout};
ghost use Rattle.px_print.specs.Unnumbered.{IsSame};
ghost use Rattle.px_print.specs.Reading.{IsAnswered, IsReadAs, IsWritten};

use px_syntax::Surface;

/// Where some text splits into tokens that spell a tree, its layout does so too, apart from the numbers of tokens. And
/// where none of the layout's tokens is too deep, what `px_plan_parse::parse` promises of them is that it answers the
/// tree, apart from these numbers, or want of memory.
pub fn plan_to_text(tree: &Surface)
    ensures splits { IsWritten (tree_of_surface tree.now) → IsReadAs (layout (tree_of_surface tree.now)) (tree_of_surface tree.now) }
    ensures parsed { (tokens : List AnyToken) → IsWritten (tree_of_surface tree.now) → Splits (layout (tree_of_surface tree.now)) tokens
        → too_deep tokens ≡ [] → IsAnswered (tree_of_surface tree.now) tokens }
{}

/// Where some UTF-8 text splits into tokens that spell a tree, its layout is UTF-8 too.
pub fn utf8_layout(tree: &Surface)
    ensures { (written : IsWritten (tree_of_surface tree.now)) → is_utf8 written.text ≡ true → is_utf8 (layout (tree_of_surface tree.now)) ≡ true }
{}

/// Trees that are the same, apart from the numbers of tokens, have one layout. So what is laid out and read is laid out
/// alike again.
pub fn one_layout(tree: &Surface, other: &Surface)
    ensures { IsSame (tree_of_surface tree.now) (tree_of_surface other.now) → layout (tree_of_surface tree.now) ≡ layout (tree_of_surface other.now) }
{}
