// The elements of a picture, and text as SVG wants it spelled.
use crate::draw::Drawing;

impl Drawing {
    /// Begins an element of a class, with these measures, in turn, in place of the `{}` of its attributes.
    pub fn begin(&mut self, element: &str, class: &str, attributes: &str, measures: &[u32]) {
        self.pen.fill_each("<{} class=\"{}\"", &[element, class]);
        self.pen.fill_each(attributes, measures);
    }

    /// Begins a shape, from the middle of its left edge; `</path>` ends it.
    pub fn begin_shape(&mut self, class: &str, form: &str, x: u32, y: u32) {
        self.begin("path", class, " transform=\"translate({} {})\"", &[x, y]);
        self.pen.fill(" d=\"{}\">", form);
    }

    /// Begins what is told where the mouse points at, of a node with this path; `</title>` ends it.
    pub fn begin_title(&mut self, path: &str) {
        self.pen.push("<title>");
        self.spell(path);
        self.pen.push(": ");
    }

    /// Draws words.
    pub fn words(&mut self, class: &str, x: u32, y: u32, words: &str) {
        self.begin("text", class, " x=\"{}\" y=\"{}\">", &[x, y]);
        self.spell(words);
        self.pen.push("</text>\n");
    }

    /// Writes a text in which no character is markup, and none that SVG may not have.
    pub fn spell(&mut self, text: &str) {
        for c in text.chars() {
            match spelled(c) {
                Some(spelled) => self.pen.push(spelled),
                None => self.pen.push_char(c),
            }
        }
    }
}

// What stands for a character; None where it stands for itself.
fn spelled(c: char) -> Option<&'static str> {
    match c {
        '&' => Some("&amp;"),
        '<' => Some("&lt;"),
        '>' => Some("&gt;"),
        '"' => Some("&quot;"),
        '\u{fffe}' | '\u{ffff}' => Some(" "),
        _ if c.is_control() => Some(" "),
        _ => None,
    }
}
