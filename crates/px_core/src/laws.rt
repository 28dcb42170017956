// What the definitions of joined terms and of paths mean, as clauses of functions that do nothing.
ghost use Rattle.std.specs.Prelude.{◌≡◌, Bool, List, IsTrue};
ghost use Rattle.std.specs.List.{list_all};
ghost use Rattle.px_core.specs.Expr.{Term};
ghost use Rattle.px_core.specs.Fit.{siblings_differ, has_name, AreDistinct};
ghost use Rattle.px_core.specs.Joined.{Joins, joined};
ghost use Rattle.px_core.specs.Plan.{Tree, sites};
ghost use Rattle.px_core.specs.declared.expr.BinaryOp.{BinaryOp};

/// The term that joins others in halves is there, and there is only one.
pub fn joining()
    ensures joins { (op : BinaryOp) (none : Bool) (terms : List Term) → Joins op none terms (joined op none terms) }
    ensures one { (op : BinaryOp) (none : Bool) (terms : List Term) (whole : Term) → Joins op none terms whole
        → whole ≡ joined op none terms }
{}

/// Different nodes have different paths, where siblings differ in name.
pub fn paths()
    ensures { (tree : Tree) → IsTrue (siblings_differ tree) → IsTrue (list_all has_name (sites tree))
        → AreDistinct (sites tree) }
{}
