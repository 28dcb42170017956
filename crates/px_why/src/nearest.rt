// The name that is meant where another one is written.
use px_pen::Pen;
use std::alloc::Global;
use strsim::levenshtein;

/// The best of the names that were looked at so far.
#[derive(Clone, Copy)]
pub struct Nearest<'a> {
    meant: &'a str,
    found: Option<&'a str>,
    /// An edit more than may be made for the next name.
    edits: usize,
    /// Whether memory has run out at a name.
    has_failed: bool,
}

impl<'a> Nearest<'a> {
    /// Looks for the name that is nearest to this one: a third of its letters may differ, and one at least.
    pub fn to(meant: &'a str) -> Nearest<'a> {
        Nearest {
            meant,
            found: None,
            edits: (meant.len() / 3).max(1).saturating_add(1),
            has_failed: false,
        }
    }

    /// Looks at a name.
    pub fn look_at(&mut self, alloc: Global, name: &'a str) {
        // Each letter more or less is an edit.
        if name.len().abs_diff(self.meant.len()) >= self.edits {
            return;
        }
        match levenshtein(alloc, self.meant, name) {
            Ok(edits) if edits < self.edits => {
                self.edits = edits;
                self.found = Some(name);
            }
            Ok(_) => {}
            Err(_) => self.has_failed = true,
        }
    }

    /// The nearest name, if one is near. Where memory ran out at one of them, it counts in what is written with it.
    pub fn found(&self, out: &mut Pen) -> Option<&'a str> {
        if self.has_failed {
            out.fail();
        }
        self.found
    }
}

/// Writes the hint that this name may be meant.
pub fn push_meant(name: &str, out: &mut Pen) {
    out.fill("is `{}` meant?", name);
}
