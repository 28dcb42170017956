// The rows: a name, a bar for each state that the node was in, marks, and how it ended.
use crate::draw::Drawing;
use crate::layout::{BAR, BASELINE, MARGIN, ROW, indent};
use crate::paths::last_name;
use crate::rows::{Change, Mark, Row};
use indexmap::IndexMap;
use px_value::{NodeState, Path};

impl Drawing {
    /// Draws a band behind every second row, under all else.
    pub fn bands(&mut self, rows: usize) {
        let width = self.layout.width;
        for number in 0..rows {
            if number % 2 == 0 {
                let top = self.layout.row(number);
                let attributes = " y=\"{}\" width=\"{}\" height=\"{}\"/>\n";
                self.begin("rect", "band", attributes, &[top, width, ROW]);
            }
        }
    }

    /// Draws the rows, with their names again at these slots.
    pub fn rows(&mut self, rows: &IndexMap<Path, Row>, again: &[u32]) {
        for (number, (path, row)) in rows.iter().enumerate() {
            let top = self.layout.row(number);
            let y = top.saturating_add(BASELINE);
            self.name(path.as_str(), row.depth, y);
            self.row(path.as_str(), row, top);
            self.names_again(last_name(path.as_str()), again, y);
        }
    }

    fn name(&mut self, path: &str, depth: usize, y: u32) {
        self.pen.push("<g><title>");
        self.spell(path);
        self.pen.push("</title>");
        self.words("name", indent(depth), y, last_name(path));
        self.pen.push("</g>\n");
    }

    // In a wide picture the name stands again and again, so that one is always in sight.
    fn names_again(&mut self, name: &str, again: &[u32], y: u32) {
        for slot in again {
            let x = self.layout.x(*slot).saturating_add(4);
            self.words("again", x, y, name);
        }
    }

    fn row(&mut self, path: &str, row: &Row, top: u32) {
        for (place, change) in row.changes.iter().enumerate() {
            let end = match row.changes.get(place.saturating_add(1)) {
                Some(next) => self.layout.x(next.slot),
                None => self.layout.right,
            };
            if change.state != NodeState::Inactive {
                self.bar(path, change, end, top);
            }
        }
        for mark in &row.marks {
            self.mark(path, mark, top);
        }
        if let Some(last) = row.changes.last() {
            self.end(last, top);
        }
    }

    fn bar(&mut self, path: &str, change: &Change, end: u32, top: u32) {
        let x = self.layout.x(change.slot);
        let measures = [x, top.saturating_add(4), end.saturating_sub(x), BAR];
        let attributes = " x=\"{}\" y=\"{}\" width=\"{}\" height=\"{}\">";
        self.begin("rect", change.state.word(), attributes, &measures);
        self.begin_title(path);
        self.standing(change);
        self.pen.push("</title></rect>\n");
    }

    fn mark(&mut self, path: &str, mark: &Mark, top: u32) {
        let x = self.layout.x(mark.slot).saturating_add(2);
        self.begin_shape("mark", mark.deed.form, x, top.saturating_add(11));
        self.begin_title(path);
        self.spell(mark.says.as_str());
        self.pen.push("</title></path>\n");
    }

    // How the node has ended, or where it stands, at the right.
    fn end(&mut self, last: &Change, top: u32) {
        let class = match last.outcome {
            Some(outcome) if last.state == NodeState::Finished => outcome.word(),
            _ => "faint",
        };
        let x = self.layout.right.saturating_add(MARGIN);
        let y = top.saturating_add(BASELINE);
        self.begin("text", class, " x=\"{}\" y=\"{}\">", &[x, y]);
        self.standing(last);
        self.pen.push("</text>\n");
    }

    // Writes the state, the outcome and the failure; of a node that has finished, no state.
    fn standing(&mut self, change: &Change) {
        let state = change.state.word();
        match change.outcome {
            Some(outcome) if change.state == NodeState::Finished => self.pen.push(outcome.word()),
            Some(outcome) => self.pen.fill_each("{} {}", &[state, outcome.word()]),
            None => self.pen.push(state),
        }
        if let Some(failure) = change.failure {
            self.pen.fill(" {}", failure.word());
        }
    }
}
