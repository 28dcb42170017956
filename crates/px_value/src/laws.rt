// What the tables mean: laws that hold of them, each a clause of a function that does nothing.
ghost use Rattle.std.specs.Prelude.{◌≡◌, ◌≢◌, pos, true, IsTrue};
ghost use Rattle.px_value.specs.Arithmetic.{value_arith, value_add};
ghost use Rattle.px_value.specs.Comparison.{value_compare};
ghost use Rattle.px_value.specs.Truth.{value_and, value_or, value_xor, value_not};
ghost use Rattle.px_value.specs.Value.{is_known};

use crate::arithmetic::ArithOp;
use crate::comparison::CompareOp;
use crate::text::Text;
use crate::value::Value;

/// The logical operations are commutative and associative, and De Morgan's laws hold of them.
pub fn logic(a: &Value, b: &Value, c: &Value)
    ensures and_commutes { value_and a.now b.now ≡ value_and b.now a.now }
    ensures or_commutes { value_or a.now b.now ≡ value_or b.now a.now }
    ensures xor_commutes { value_xor a.now b.now ≡ value_xor b.now a.now }

    ensures and_associates { value_and (value_and a.now b.now) c.now
        ≡ value_and a.now (value_and b.now c.now) }
    ensures or_associates { value_or (value_or a.now b.now) c.now
        ≡ value_or a.now (value_or b.now c.now) }
    ensures xor_associates { value_xor (value_xor a.now b.now) c.now
        ≡ value_xor a.now (value_xor b.now c.now) }

    ensures not_and { value_not (value_and a.now b.now)
        ≡ value_or (value_not a.now) (value_not b.now) }
    ensures not_or { value_not (value_or a.now b.now)
        ≡ value_and (value_not a.now) (value_not b.now) }
    ensures and_distributes { value_and a.now (value_or b.now c.now)
        ≡ value_or (value_and a.now b.now) (value_and a.now c.now) }
{}

/// `==` answers true of two values exactly where they are one known value; the other comparisons
/// follow from it and from `<` and `<=`.
pub fn comparisons(a: &Value, b: &Value)
    ensures equal_is_same { value_compare CompareOp.Equal a.now b.now ≡ Value.Boolean true
        → a.now ≡ b.now }
    ensures same_is_equal { IsTrue (is_known a.now)
        → value_compare CompareOp.Equal a.now a.now ≡ Value.Boolean true }

    ensures differs { value_compare CompareOp.Differs a.now b.now
        ≡ value_not (value_compare CompareOp.Equal a.now b.now) }
    ensures greater { value_compare CompareOp.Greater a.now b.now
        ≡ value_compare CompareOp.Less b.now a.now }
    ensures at_least { value_compare CompareOp.AtLeast a.now b.now
        ≡ value_compare CompareOp.AtMost b.now a.now }
    ensures at_most { value_compare CompareOp.AtMost a.now b.now
        ≡ value_not (value_compare CompareOp.Greater a.now b.now) }
{}

/// Sums of Integers, products, `min` and `max` are commutative.
pub fn integers(a: i32, b: i32)
    ensures sum_commutes { value_add (Value.Integer a) (Value.Integer b)
        ≡ value_add (Value.Integer b) (Value.Integer a) }
    ensures product_commutes { value_arith ArithOp.Times (Value.Integer a) (Value.Integer b)
        ≡ value_arith ArithOp.Times (Value.Integer b) (Value.Integer a) }
    ensures min_commutes { value_arith ArithOp.Min (Value.Integer a) (Value.Integer b)
        ≡ value_arith ArithOp.Min (Value.Integer b) (Value.Integer a) }
    ensures max_commutes { value_arith ArithOp.Max (Value.Integer a) (Value.Integer b)
        ≡ value_arith ArithOp.Max (Value.Integer b) (Value.Integer a) }
{}

/// A quotient that is known, times the divisor, and the rest make the dividend. The rest is known
/// for every divisor but 0.
pub fn division(a: i32, b: i32)
    ensures known { IsTrue (is_known (value_arith ArithOp.Over (Value.Integer a) (Value.Integer b)))
        → value_add
        (value_arith ArithOp.Times
        (value_arith ArithOp.Over (Value.Integer a) (Value.Integer b)) (Value.Integer b))
        (value_arith ArithOp.Rest (Value.Integer a) (Value.Integer b))
        ≡ Value.Integer a }
    ensures rest { b ≢ pos 0
        → IsTrue (is_known (value_arith ArithOp.Rest (Value.Integer a) (Value.Integer b))) }
{}

/// The joining of texts is associative.
pub fn texts(a: &Text, b: &Text, c: &Text)
    ensures { value_add (value_add (Value.Text a.now) (Value.Text b.now)) (Value.Text c.now)
        ≡ value_add (Value.Text a.now) (value_add (Value.Text b.now) (Value.Text c.now)) }
{}
