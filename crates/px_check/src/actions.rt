// What assignments, commands and updates are at fault for.
ghost use Rattle.std.specs.Prelude.{◌≡◌, map};
ghost use Rattle.std.specs.List.{flat_map};
ghost use Rattle.std.specs.Option.{is_some};
ghost use Rattle.px_syntax.specs.Block.{target_data, call_data, pair_data};
ghost use Rattle.px_syntax.specs.BlockFaults.{target_faults, assign_faults, call_faults, call_into_faults, update_faults};
ghost use Rattle.px_syntax.specs.Expr.{term_of};
ghost use Rattle.px_syntax.specs.ExprFaults.{type_named, faults_as};
ghost use Rattle.px_syntax.specs.ValueType.{told_types};
ghost use Rattle.px_syntax.specs.declared.fault.FaultKind.TheVariants.{NotAssignable};
ghost use Rattle.px_check.specs.Found.{noted};

use crate::calls::{ARGUMENT_LIMIT, gives_none_of, note_count, parameters_of};
use crate::found::Found;
use crate::scope::Scope;
use crate::types::Allowed;
use px_syntax::{Call, FaultKind, Pair, SurfaceExpr, Target, ValueType};

impl<'a> Scope<'a> {
    // The type of what is written to a target, for whatever is written there.
    fn target(&self, target: &Target, found: &mut Found) -> ValueType
        ensures of_type { result
            ≡ type_named NotAssignable self.now (target_data target.now).name (is_some (target_data target.now).index) }
        ensures found { found.new ≡ noted found.old (target_faults self.now (target_data target.now)) }
    {
        let has_index = target.index.is_some();
        let of_type = self.named(FaultKind::NotAssignable, &target.name, has_index, found);
        if let Some(index) = &target.index {
            self.expression(Allowed::Only(ValueType::Integer), index, found);
        }
        of_type
    }

    /// Notes what an assignment is at fault for.
    pub fn assign(&self, target: &Target, value: &SurfaceExpr, found: &mut Found)
        ensures { found.new ≡ noted found.old (assign_faults self.now (target_data target.now) (term_of value.now)) }
    {
        let of_type = self.target(target, found);
        self.expression(Allowed::Only(of_type), value, found);
    }

    /// Notes what a command is at fault for.
    pub fn call(&self, call: &Call, found: &mut Found)
        ensures { found.new ≡ noted found.old (call_faults self.now (call_data call.now)) }
    {
        let callable = self.command(&call.name.name);
        let _ = note_count(callable, &call.name, call.args.len(), found);
        self.arguments(&call.args, parameters_of(callable), found);
    }

    /// Notes what a command is at fault for whose answer is written.
    pub fn call_into(&self, target: &Target, call: &Call, found: &mut Found)
        ensures { found.new ≡ noted found.old
            (call_into_faults self.now (target_data target.now) (call_data call.now)) }
    {
        let of_type = self.target(target, found);
        let callable = self.command(&call.name.name);
        found.note_where(
            gives_none_of(callable, Allowed::Only(of_type)),
            FaultKind::TypeDiffers,
            call.name.token,
        );
        self.call(call, found);
    }

    fn pairs(&self, pairs: &[Pair], found: &mut Found)
        ensures { found.new ≡ noted found.old
            (flat_map (λ pair. faults_as told_types self.now pair.value) (map pair_data pairs.now)) }
    {
        for pair in pairs {
            self.expression(Allowed::Told, &pair.value, found);
        }
    }

    /// Notes what an update is at fault for, whose word has this token.
    pub fn update(&self, token: usize, pairs: &[Pair], found: &mut Found)
        ensures { found.new ≡ noted found.old (update_faults self.now token (map pair_data pairs.now)) }
    {
        found.note_where(ARGUMENT_LIMIT < pairs.len(), FaultKind::TooLarge, token);
        self.pairs(pairs, found);
    }
}
