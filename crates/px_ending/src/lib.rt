//! How a command ends: its status, and all of its text.
//!
//! `status` has the statuses, `refusal` why a command isn't carried out, with the line that tells it, and `plan_refusal` the
//! lines of plans that are refused. `specs/Ending.antt` has each ending that there is, `specs/PlanRefusal.antt` the table of
//! a plan's reasons, and `specs/Statuses.antt` the numbers.
#![tactic(auto)]

mod plan_refusal;
mod refusal;
mod status;

pub use refusal::Refusal;
pub use status::{End, Status};
