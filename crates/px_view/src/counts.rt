// Counts.
use px_pen::Pen;

/// Ends a line with how many things there are, of which one is called so.
pub fn push_count(count: usize, thing: &str, out: &mut Pen) {
    out.show(&count);
    out.fill(if count == 1 { " {}\n" } else { " {}s\n" }, thing);
}
