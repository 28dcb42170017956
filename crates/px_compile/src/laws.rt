// What the definitions of plans and refusals mean together, as clauses of functions that do nothing.
ghost use Rattle.std.specs.Prelude.{◌≡◌, ◌≢◌};
ghost use Rattle.px_core.specs.Plan.{Tree};
ghost use Rattle.px_syntax.specs.Plan.{PlanTree};
ghost use Rattle.px_syntax.specs.declared.fault.PlanFault.{PlanFault};
ghost use Rattle.px_syntax.specs.declared.fault.PlanFault.TheVariants.{NoMemory};
ghost use Rattle.px_compile.specs.Compiled.{IsCompiled, IsRefused, IsSpelled};

/// No bytes spell two trees or two plans; none that spell a plan are refused, and none are refused in two ways, want of
/// memory apart.
pub fn one_answer(bytes: &[u8])
    ensures one_tree { (a b : PlanTree) → IsSpelled bytes.now a → IsSpelled bytes.now b → a ≡ b }
    ensures one_plan { (a b : Tree) → IsCompiled bytes.now a → IsCompiled bytes.now b → a ≡ b }
    ensures no_refusal { (plan : Tree) (fault : PlanFault) → fault ≢ NoMemory
        → IsCompiled bytes.now plan → IsRefused bytes.now fault → ⊥ }
    ensures one_refusal { (f g : PlanFault) → f ≢ NoMemory → g ≢ NoMemory
        → IsRefused bytes.now f → IsRefused bytes.now g → f ≡ g }
{}
