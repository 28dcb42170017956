// What the table of operators says and means as a whole.
ghost use Rattle.std.specs.Prelude.{◌≡◌, ◌<◌};
ghost use Rattle.px_syntax.specs.Operator.{level_of, operator_rows};
ghost use Rattle.px_syntax.specs.declared.operator.BinaryOperator.{BinaryOperator};
ghost use Rattle.px_syntax.specs.declared.operator.Operator.TheVariants.{Binary, Unary};
ghost use Rattle.px_syntax.specs.declared.operator.TheConstants.{OPERATORS};
ghost use Rattle.px_syntax.specs.declared.operator.UnaryOperator.{UnaryOperator};

/// The table of the code is that of the definitions, row by row.
pub fn table()
    ensures { OPERATORS ≡ operator_rows }
{}

/// Each operator has a row in the table, and those before one operand bind tighter than those between two.
pub fn levels()
    ensures between { (operator : BinaryOperator)
        → (0 < level_of (Binary operator)) × (level_of (Binary operator) < 8) }
    ensures before { (operator : UnaryOperator) → level_of (Unary operator) ≡ 8 }
{}
