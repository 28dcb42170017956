// What stands round the picture: the title and the legend.
use crate::draw::Drawing;
use crate::layout::{MARGIN, text_width};
use crate::rows::{ABORT, COMMAND, UPDATE, WRITE};
use crate::style::STYLE;
use px_value::NodeState;

/// The states that have a colour.
const STATES: [NodeState; 6] = [
    NodeState::Waiting,
    NodeState::Executing,
    NodeState::Finishing,
    NodeState::Failing,
    NodeState::IterationEnded,
    NodeState::Finished,
];

/// The outline of a cross, from the middle of its left edge.
pub const CROSS: &str = "M0 -4 L8 4 M8 -4 L0 4";

/// The room between a sign of the legend and its word, the sign with it.
const SIGN: u32 = 20;

/// Where the words of the legend stand.
const LEGEND_BASELINE: u32 = 57;

impl Drawing {
    /// Draws the paper, the title and the legend.
    pub fn frame(&mut self, title: &str) {
        let width = self.layout.width;
        let height = self.layout.height;
        self.pen.fill_each(
            "<svg xmlns=\"http://www.w3.org/2000/svg\" width=\"{}\" height=\"{}\" viewBox=\"0 0 {} {}\">\n",
            &[width, height, width, height],
        );
        self.pen.push(STYLE);
        self.pen
            .push("<rect class=\"paper\" width=\"100%\" height=\"100%\"/>\n");
        self.words("title", MARGIN, 28, title);
        self.legend();
    }

    fn legend(&mut self) {
        let mut x = MARGIN;
        for state in &STATES {
            let attributes = " x=\"{}\" y=\"46\" width=\"14\" height=\"14\"/>";
            self.begin("rect", state.word(), attributes, &[x]);
            x = self.legend_word(state.word(), x);
        }
        for deed in &[COMMAND, ABORT, UPDATE, WRITE] {
            x = self.sign("mark", deed.form, deed.word, x);
        }
        self.sign("cross", CROSS, "refused", x);
    }

    // Draws a sign and its word, and answers where the next sign stands.
    fn sign(&mut self, class: &str, form: &str, word: &str, x: u32) -> u32 {
        self.begin_shape(class, form, x, LEGEND_BASELINE.saturating_sub(4));
        self.pen.push("</path>");
        self.legend_word(word, x)
    }

    // Draws a word behind its sign, and answers where the next sign stands.
    fn legend_word(&mut self, word: &str, x: u32) -> u32 {
        let x = x.saturating_add(SIGN);
        self.words("word", x, LEGEND_BASELINE, word);
        x.saturating_add(text_width(word)).saturating_add(MARGIN)
    }
}
