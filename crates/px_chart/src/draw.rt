// The picture.
ghost use Rattle.px_core.specs.Fit.{IsFit};
ghost use Rattle.px_core.specs.Plan.{tree_of};

use crate::layout::Layout;
use crate::record::record_run;
use crate::recording::Recording;
use px_core::Plan;
use px_event::Entry;
use px_pen::Pen;
use px_sem::Stepper;
use px_value::NoMemory;
use std::alloc::Global;

/// A picture that is being made.
#[derive(Drop)]
pub struct Drawing {
    pub layout: Layout,
    /// Writes what is drawn.
    pub pen: Pen,
}

/// Draws the run of a plan to which these entries are posted in their order, as SVG under a title, and answers whether its
/// start settles; where it doesn't, nothing is drawn.
pub fn draw_run<S: Stepper>(
    alloc: Global,
    title: &str,
    plan: &Plan,
    entries: &[Entry],
    out: &mut Pen,
) -> Result<bool, NoMemory>
    requires fit { IsFit (tree_of plan.now) }
{
    let mut recording = Recording::new(alloc);
    let settles = record_run::<S>(alloc, plan, entries, &mut recording);
    if let Ok(true) = settles {
        *out = picture_of(alloc, title, &recording);
    }
    drop(recording);
    settles
}

// The picture of a run: a row for each node and a column for each event, light or dark as its reader has it.
fn picture_of(alloc: Global, title: &str, recording: &Recording) -> Pen {
    let mut drawing = Drawing {
        layout: Layout::of(title, recording),
        pen: Pen::new(alloc),
    };
    drawing.draw(title, recording);
    let Drawing { pen, .. } = drawing;
    pen
}

impl Drawing {
    fn draw(&mut self, title: &str, recording: &Recording) {
        let rows = recording.rows.len();
        self.frame(title);
        self.bands(rows);
        self.columns(&recording.columns);
        self.rows(&recording.rows, &recording.again);
        self.numbers_again(&recording.columns, rows);
        self.pen.push("</svg>\n");
        if recording.has_failed {
            self.pen.fail();
        }
    }
}
