// What the definition of a script means: laws that hold of it, each a clause of a function that does nothing.
ghost use Rattle.std.specs.Prelude.{◌≡◌, ◌≤◌, ◌↔◌, List, [], ◌∷◌, ◌++◌, All, IsTrue, length};
ghost use Rattle.px_core.specs.Plan.{tree_of, sites, Site};
ghost use Rattle.px_event.specs.declared.entry.Entry.{Entry};
ghost use Rattle.px_script.specs.Equality.{script_eq};
ghost use Rattle.px_script.specs.Fit.{IsFitScript};
ghost use Rattle.px_script.specs.Follows.{Follows, IsNextPost};
ghost use Rattle.px_script.specs.Remainder.{rest, IsAhead};
ghost use Rattle.px_script.specs.Script.{Threads, script};
ghost use Rattle.px_script.specs.Sound.{IsSoundFor};
ghost use Rattle.px_script.specs.declared.script.Script.{Script as AnyScript};
ghost use Rattle.px_script.specs.declared.todo.Todo.{Todo};
ghost use Rattle.px_sem.specs.Log.{Log, accepted};

use crate::read::SCRIPT_LIMIT;
use crate::script::Script;
use px_core::Plan;

/// A script that bytes spell over a plan, at most 16,777,216 of them, is fit.
pub fn fitness(bytes: &[u8], plan: &Plan, spelled: &Script)
    requires { length bytes.now ≤ SCRIPT_LIMIT }
    ensures { script (sites (tree_of plan.now)) bytes.now ≡ Threads spelled.now.threads spelled.now.names → IsFitScript spelled.now }
{}

/// `==` of two scripts answers whether they are equal.
pub fn script_equality(a: &Script, b: &Script)
    ensures { IsTrue (script_eq a.now b.now) ↔ (a.now ≡ b.now) }
{}

/// A script that is taken up again after a stop posts no line twice: what is left of a thread stands behind all that the
/// history has of it. Before the first entry the whole script is left, and after a later stop as much as if the earlier
/// one had not been.
pub fn once_over_stops()
    ensures whole { (script : AnyScript) → IsFitScript script → rest script.threads [] ≡ script.threads }
    ensures again { (threads : List Todo) (history more : List Entry)
        → rest (rest threads history) (history ++ more) ≡ rest threads (history ++ more) }
    ensures ahead { (threads : List Todo) (history : List Entry) → All (IsAhead history) (rest threads history) }
{}

/// No line twice, over one session: a history is sound for a script if its entries are posts of it, each at most once. The
/// empty history is sound, and so is each front of a sound one. A history that is sound for a fit script stays so as a log
/// that follows what it leaves of the script goes on behind it, and with the next post of a thread behind that.
pub fn soundness()
    ensures empty { (threads : List Todo) → IsSoundFor threads [] }
    ensures front { (threads : List Todo) (history more : List Entry) → IsSoundFor threads (history ++ more) → IsSoundFor threads history }
    ensures follows { (script : AnyScript) → IsFitScript script → (plan : List Site) (first : List Entry) (log : Log) → IsSoundFor script.threads first
        → Follows plan first log (rest script.threads first) → IsSoundFor script.threads (first ++ accepted log) }
    ensures next { (script : AnyScript) → IsFitScript script → (plan : List Site) (first : List Entry) (log : Log) (entry : Entry) → IsSoundFor script.threads first
        → Follows plan first log (rest script.threads first) → IsNextPost plan first log (rest script.threads first) entry
        → IsSoundFor script.threads ((first ++ accepted log) ++ entry ∷ []) }
{}
