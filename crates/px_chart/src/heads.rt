// The columns: a line where each begins, and what was posted at its head.
use crate::columns::Column;
use crate::draw::Drawing;
use crate::frame::CROSS;
use crate::layout::{NUMBERS, NUMBERS_EVERY};

/// How far above the rows the events' numbers stand.
const FOOT: u32 = 6;

impl Drawing {
    /// Draws the columns.
    pub fn columns(&mut self, columns: &[Column]) {
        for column in columns {
            self.column(column);
        }
        let top = self.layout.top;
        self.numbers(columns, top);
    }

    // Draws the line and the label, which rises from the foot of the head.
    fn column(&mut self, column: &Column) {
        let x = self.layout.x(column.begin);
        let y = self.layout.top.saturating_sub(NUMBERS);
        let bottom = self.layout.height;
        self.begin("path", "line", " d=\"M{} {} V{}\"/>\n", &[x, y, bottom]);
        self.pen.push("<g><title>");
        self.spell(column.title.as_str());
        self.pen.push("</title>");
        let class = match column.refused {
            Some(_) => "refused",
            None => "label",
        };
        let attributes = " transform=\"translate({} {}) rotate(-90)\">";
        self.begin("text", class, attributes, &[x.saturating_add(14), y]);
        self.spell(column.label.as_str());
        self.pen.push("</text></g>\n");
    }

    /// Draws the events' numbers again and again where the picture is high, so that they are always in sight.
    pub fn numbers_again(&mut self, columns: &[Column], rows: usize) {
        for row in 1..rows {
            if row % NUMBERS_EVERY == 0 {
                let y = self.layout.row(row);
                self.numbers(columns, y);
            }
        }
    }

    // Draws the number of each event above this height, and a cross where one was refused.
    fn numbers(&mut self, columns: &[Column], y: u32) {
        let mut number: u32 = 0;
        for column in columns {
            let x = self.layout.x(column.begin).saturating_add(4);
            if column.refused.is_some() {
                self.begin_shape("cross", CROSS, x, y.saturating_sub(10));
                self.pen.push("</path>\n");
            } else {
                let measures = [x, y.saturating_sub(FOOT), number];
                self.begin("text", "faint", " x=\"{}\" y=\"{}\">{}</text>\n", &measures);
                number = number.saturating_add(1);
            }
        }
    }
}
