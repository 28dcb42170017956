// The first fault of what was looked at.
ghost use Rattle.std.specs.Prelude.{◌≡◌, None, option_map};
ghost use Rattle.px_syntax.specs.Fault.{is_before, fault_where};
ghost use Rattle.px_syntax.specs.declared.fault.FaultKind.TheVariants.{TypeDiffers};
ghost use Rattle.px_check.specs.Found.{fault_of, earlier, noted};

use crate::types::Allowed;
use px_syntax::{FaultKind, ValueType};
use std::marker::Model;

/// What may stand at a place, and what stands there.
#[derive(Clone, Copy)]
pub struct Misfit {
    pub wanted: Allowed,
    pub given: ValueType,
}

/// A fault, and the number of its token.
#[derive(Clone, Copy)]
pub struct Spot {
    pub token: usize,
    pub kind: FaultKind,
    /// Where an expression or a literal is of another type than is wanted.
    pub misfit: Option<Misfit>,
}

/// The first fault behind the floor of what was looked at so far: by its token, and then by its kind's number.
#[derive(Drop)]
pub struct Found {
    floor: Option<Spot>,
    first: Option<Spot>,
}

impl Model for Found {
    ghost use Rattle.std.specs.Prelude.{option_map};
    ghost use Rattle.px_check.specs.Found.{Sought, fault_of};

    ghost Value = { Sought };

    ghost view = { λ found. record { floor = option_map fault_of found.floor; first = option_map fault_of found.first } };
}

fn is_before(spot: Spot, other: Spot) -> bool
    ensures { result ≡ is_before (fault_of spot) (fault_of other) }
{
    spot.token < other.token || (spot.token == other.token && (spot.kind as u8) < other.kind as u8)
}

impl Found {
    /// Nothing was found behind the floor.
    pub fn new(floor: Option<Spot>) -> Found
        ensures { result ≡ record { floor = option_map fault_of floor; first = None } }
    {
        Found { floor, first: None }
    }

    /// Notes a fault of this kind at this token, where it is one.
    #[tactic(auto, unfolding(crate::specs::Found::noted))]
    pub fn note_where(&mut self, is_fault: bool, kind: FaultKind, token: usize)
        ensures { self.new ≡ noted self.old (fault_where is_fault kind token) }
    {
        if is_fault {
            self.note(Spot {
                token,
                kind,
                misfit: None,
            });
        }
    }

    /// Notes what stands at this token and doesn't fit, where it doesn't.
    #[tactic(auto, unfolding(crate::specs::Found::noted))]
    pub fn note_misfit_where(&mut self, is_fault: bool, misfit: Misfit, token: usize)
        ensures { self.new ≡ noted self.old (fault_where is_fault TypeDiffers token) }
    {
        if is_fault {
            self.note(Spot {
                token,
                kind: FaultKind::TypeDiffers,
                misfit: Some(misfit),
            });
        }
    }

    fn note(&mut self, spot: Spot)
        ensures { self.new ≡ earlier self.old (fault_of spot) }
    {
        match self.floor {
            Some(floor) if !is_before(floor, spot) => return,
            _ => {}
        }
        match self.first {
            Some(other) if !is_before(spot, other) => {}
            _ => self.first = Some(spot),
        }
    }

    /// The first fault behind the floor; None where there is none.
    pub fn first(&self) -> Option<Spot>
        ensures { option_map fault_of result ≡ self.now.first }
    {
        self.first
    }
}
