//! The nodes of a plan, and the picture of a run as SVG.
//!
//! `paths` lists the nodes of a plan by their paths. `record` posts events to a stepper and keeps what its nodes do, as a
//! `Recording` of `rows` and `columns`; `labels` names events and effects, and `values` spells values. `draw` makes the
//! picture: `layout` has its measures, `style` its colours, `frame` its title and its legend, `heads` the columns with
//! their events, and `bars` the rows with their states and marks, all made of `elements`.
#![tactic(auto)]

mod bars;
mod columns;
mod draw;
mod elements;
mod frame;
mod heads;
mod labels;
mod layout;
mod paths;
mod record;
mod recording;
mod rows;
mod style;
mod values;

pub use draw::draw_run;
pub use paths::{NodePath, last_name, paths_of};
pub use values::push_value;
