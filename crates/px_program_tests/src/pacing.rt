// What holds the threads of a script up before their posts.
use crate::side_by_side::{Leading, Meeting};
use px_script::Pace;

/// One type for all, since the whole program is built anew for each.
#[derive(Clone, Copy)]
pub(crate) enum Pacing<'a> {
    Nothing,
    Meeting(&'a Meeting),
    Leading(&'a Leading),
}

impl Pace for Pacing<'_> {
    fn before(&self, thread: u8, line: u32) {
        match self {
            Pacing::Nothing => {}
            Pacing::Meeting(meeting) => meeting.before(thread, line),
            Pacing::Leading(leading) => leading.before(thread, line),
        }
    }
}
