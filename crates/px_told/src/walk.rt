// How what a node asks is handed on to those below it.
ghost use Rattle.std.specs.Prelude.{◌≡◌, ◌<◌, ◌≤◌, length};
ghost use Rattle.px_told.specs.Hearing.{HasHeard};
ghost use Rattle.px_told.specs.Preorder.{IsPreorder, parent_of};
ghost use Rattle.px_told.specs.Told.{asked_under, AreAllTold, AreOthersTold};

use crate::asks::Asks;
use crate::place::Place;
use px_links::Links;

// What a node is to be told.
fn asked_of(tree: &[Place], own: &[Asks], told: &[Asks], node: u32) -> Asks
    requires tree { IsPreorder tree.now }
    requires own { length own.now ≡ length tree.now }
    requires told { length told.now ≡ length tree.now }
    requires node { node < length tree.now }
    ensures { result ≡ asked_under own.now told.now (parent_of tree.now node) }
{
    match tree[node as usize].parent {
        Some(parent) => own[parent as usize].or(told[parent as usize]),
        None => Asks::NOTHING,
    }
}

/// Tells the nodes below this one what they are asked now, and puts those for whom that is something else behind the others
/// of a list, where they are in no list yet. One forward walk: before `at` each node is told what it is to be told, and
/// from `at` on what it was. Below a node that is told what it was nothing changes, so its descendants aren't looked at.
pub(crate) fn hand_on(
    tree: &[Place],
    own: &[Asks],
    told: &mut [Asks],
    node: u32,
    heard: &mut Links,
    list: u32,
)
    requires tree { IsPreorder tree.now }
    requires own { length own.now ≡ length tree.now }
    requires told { length told.old ≡ length tree.now }
    requires node { node < length tree.now }
    requires others { AreOthersTold tree.now own.now told.old node }
    requires list { list < length heard.old.lists }
    requires cells { length tree.now ≤ heard.old.cells }
    ensures told { AreAllTold tree.now own.now told.new }
    ensures heard { HasHeard told.old told.new heard.old heard.new list }
{
    let end = tree[node as usize].end;
    let mut at = node + 1;
    'below: while at < end {
        let asked = asked_of(tree, own, told, at);
        if asked == told[at as usize] {
            at = tree[at as usize].end;
        } else {
            told[at as usize] = asked;
            heard.push_back_absent(list, at);
            at += 1;
        }
    }
}
