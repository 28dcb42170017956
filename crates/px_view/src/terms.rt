// Expressions of a plan in words of the language, with the paths of the nodes that they read.
use px_chart::push_value;
use px_core::{BinaryOp, Expr, LookWord, UnaryOp};
use px_pen::Pen;
use px_value::{ArithOp, CompareOp};

/// Writes an expression.
#[cycle(terms)]
pub fn push_expr(expr: &Expr, out: &mut Pen) {
    match expr {
        Expr::Literal(value) => push_value(value, out),
        Expr::Var { name, .. } => out.push(name.as_str()),
        Expr::Cell { name, index, .. } => {
            out.push(name.as_str());
            push_index(index, out);
        }
        Expr::StateOf(path) => out.fill("{}.state", path.as_str()),
        Expr::OutcomeOf(path) => out.fill("{}.outcome", path.as_str()),
        Expr::FailureOf(path) => out.fill("{}.failure", path.as_str()),
        Expr::HandleOf(path) => out.fill("{}.command_handle", path.as_str()),
        Expr::Acknowledged(path) => out.fill("{} is acknowledged", path.as_str()),
        Expr::Look {
            word,
            name,
            args,
            tolerance,
        } => {
            out.push(look_word(*word));
            out.fill("({}", name.as_str());
            if !args.is_empty() {
                push_args(args, out);
            }
            if let Some(tolerance) = tolerance {
                out.fill_each(", {}", &[*tolerance]);
            }
            out.push(")");
        }
        Expr::Unary { op, arg } => {
            let (open, close) = unary_form(*op);
            out.push(open);
            push_operand(arg, close, out);
            out.push(close);
        }
        Expr::Binary { op, left, right } => {
            let (open, between, close) = binary_form(*op);
            out.push(open);
            push_operand(left, close, out);
            out.push(between);
            push_operand(right, close, out);
            out.push(close);
        }
    }
}

/// Writes an index in brackets.
#[cycle(terms)]
pub fn push_index(index: &Expr, out: &mut Pen) {
    out.push("[");
    push_expr(index, out);
    out.push("]");
}

// Writes an operand of what ends so: in parentheses where it is an operation and stands in none yet.
#[cycle(terms)]
fn push_operand(operand: &Expr, close: &str, out: &mut Pen) {
    if close.is_empty() && is_operation(operand) {
        out.push("(");
        push_expr(operand, out);
        out.push(")");
    } else {
        push_expr(operand, out);
    }
}

/// Writes expressions in parentheses.
#[cycle(terms)]
pub fn push_args(args: &[Expr], out: &mut Pen) {
    out.push("(");
    for (place, arg) in args.iter().enumerate() {
        if place > 0 {
            out.push(", ");
        }
        push_expr(arg, out);
    }
    out.push(")");
}

// What stands before an operand and behind it.
fn unary_form(op: UnaryOp) -> (&'static str, &'static str) {
    match op {
        UnaryOp::Not => ("!", ""),
        UnaryOp::Minus => ("-", ""),
        UnaryOp::IsKnown => ("isKnown(", ")"),
        UnaryOp::Abs => ("abs(", ")"),
        UnaryOp::Length => ("strlen(", ")"),
    }
}

// What stands before two operands, between them and behind them.
fn binary_form(op: BinaryOp) -> (&'static str, &'static str, &'static str) {
    match op {
        BinaryOp::Arith(ArithOp::Min) => ("min(", ", ", ")"),
        BinaryOp::Arith(ArithOp::Max) => ("max(", ", ", ")"),
        _ => ("", sign_of(op), ""),
    }
}

fn sign_of(op: BinaryOp) -> &'static str {
    match op {
        BinaryOp::And => " && ",
        BinaryOp::Or => " || ",
        BinaryOp::Xor => " XOR ",
        BinaryOp::Compare(CompareOp::Equal) => " == ",
        BinaryOp::Compare(CompareOp::Differs) => " != ",
        BinaryOp::Compare(CompareOp::Less) => " < ",
        BinaryOp::Compare(CompareOp::AtMost) => " <= ",
        BinaryOp::Compare(CompareOp::Greater) => " > ",
        BinaryOp::Compare(CompareOp::AtLeast) => " >= ",
        BinaryOp::Add => " + ",
        BinaryOp::Arith(ArithOp::Minus) => " - ",
        BinaryOp::Arith(ArithOp::Times) => " * ",
        BinaryOp::Arith(ArithOp::Over) => " / ",
        BinaryOp::Arith(_) => " % ",
    }
}

fn is_operation(expr: &Expr) -> bool {
    match expr {
        Expr::Unary { op, .. } => matches!(op, UnaryOp::Not | UnaryOp::Minus),
        Expr::Binary { op, .. } => !matches!(op, BinaryOp::Arith(ArithOp::Min | ArithOp::Max)),
        _ => false,
    }
}

fn look_word(word: LookWord) -> &'static str {
    match word {
        LookWord::Lookup => "Lookup",
        LookWord::LookupNow => "LookupNow",
        LookWord::LookupOnChange => "LookupOnChange",
    }
}
