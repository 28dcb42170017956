// The columns of a picture: the start, and what was posted.
use crate::labels::push_event;
use px_event::Entry;
use px_pen::Pen;
use std::alloc::Global;

/// The start, or a post.
#[derive(Drop)]
pub struct Column {
    /// Its first slot.
    pub begin: u32,
    /// What stands at its head.
    pub label: String,
    /// All that is known of it.
    pub title: String,
    /// Why it was refused; None where it was accepted.
    pub refused: Option<&'static str>,
}

/// All that is known of an entry, which was refused for this reason, or accepted.
pub fn title_of(alloc: Global, entry: &Entry, refused: Option<&str>) -> Pen {
    let mut title = Pen::new(alloc);
    let thread = u32::from(entry.thread);
    title.fill_each("thread {} line {}: ", &[thread, entry.line]);
    push_event(&entry.event, &mut title);
    if let Some(why) = refused {
        title.fill(" (refused: {})", why);
    }
    title
}
