// A truth that changed, carried up.
ghost use Rattle.std.specs.Prelude.{◌≡◌, ◌<◌, length, set, IfSome, IsFalse};
ghost use Rattle.px_cached.specs.Carrying.{AreWholesKept, IsInside, IsOfPart, IsOnlyChanged, LooksUp, truth_by};
ghost use Rattle.px_cached.specs.Network.{Agree, IsNetwork, IsSettled, part_at, truth_at};

use crate::part::{Above, Part};

/// What came of a change: the node whose condition it reached, if it did, and at how many parts was looked.
#[derive(Clone, Copy)]
pub(crate) struct Carried {
    pub(crate) changed: Option<u32>,
    pub(crate) looks: u32,
}

/// The truth of a part by those in it, or the one that it has where it is evaluated whole.
pub(crate) fn truth_by_parts(network: &[Part], truths: &[Option<bool>], part: u32) -> Option<bool>
    requires part { part < length network.now }
    requires sized { length truths.now ≡ length network.now }
    requires inside { IsInside (length network.now) (part_at network.now part) }
    ensures { result ≡ truth_by truths.now (truth_at truths.now part) (part_at network.now part) }
{
    match &network[part as usize] {
        Part::Whole(_) => truths[part as usize],
        Part::Joined { joint, left, right } => {
            joint.over(truths[*left as usize], truths[*right as usize])
        }
    }
}

// Sets a truth. False where it is the same as before.
fn replace(truths: &mut [Option<bool>], part: u32, truth: Option<bool>) -> bool
    requires { part < length truths.old }
    ensures truths { truths.new ≡ set truths.old part truth }
    ensures same { IsFalse result → truth_at truths.old part ≡ truth }
{
    let is_new = truths[part as usize] != truth;
    truths[part as usize] = truth;
    is_new
}

/// Sets the truth of a part, and of each part above it as far as something changes. Before and afterwards each joined part
/// agrees with those in it; on the way up the one above the last that was set does not.
pub(crate) fn carry(
    network: &[Part],
    above: &[Above],
    truths: &mut [Option<bool>],
    from: u32,
    truth: Option<bool>,
) -> Carried
    requires network { IsNetwork network.now above.now }
    requires sized { length truths.old ≡ length network.now }
    requires part { from < length network.now }
    requires agree { Agree network.now truths.old }
    requires settled { IsSettled truths.old truth (part_at network.now from) }
    ensures agree { Agree network.now truths.new }
    ensures set { truth_at truths.new from ≡ truth }
    ensures wholes { AreWholesKept network.now truths.old truths.new from }
    ensures changed { IsOnlyChanged above.now truths.old truths.new result.changed }
    ensures node { IfSome result.changed (IsOfPart above.now (length network.now)) }
    ensures looks { LooksUp above.now from result.looks }
{
    let mut looks = 1;
    if !replace(truths, from, truth) {
        return Carried {
            changed: None,
            looks,
        };
    }
    let mut at = from;
    'up: loop {
        match above[at as usize] {
            Above::Condition(node) => {
                return Carried {
                    changed: Some(node),
                    looks,
                };
            }
            Above::Part(next) => {
                looks += 1;
                let truth = truth_by_parts(network, truths, next);
                if !replace(truths, next, truth) {
                    return Carried {
                        changed: None,
                        looks,
                    };
                }
                at = next;
            }
        }
    }
}
