// A call of the second program over a host in memory that has three files.
use crate::running::{Answer, Call, file, words_of};
use px_machine::Machine;
use px_ports::MemHost;
use px_view::view;
use std::alloc::Global;

fn host_of(alloc: Global, call: Call<'_>) -> anyhow::Result<MemHost> {
    let files = vec![in alloc;
        file(alloc, "P", call.plan)?,
        file(alloc, "S", call.script)?,
        file(alloc, "J", call.journal)?,
    ]?;
    Ok(MemHost::new(alloc, files, Vec::new(alloc), Vec::new(alloc), 0)?)
}

/// What the second program answers to these words: its status and its text, which `to NAME` stands above where it goes to a
/// file. It writes no journal.
pub(crate) fn view_of(alloc: Global, words: &str, call: Call<'_>) -> anyhow::Result<Answer> {
    let words = words_of(alloc, words)?;
    let mut host = host_of(alloc, call)?;
    let px_view::Answer { status, text, file } = view::<MemHost, Machine>(alloc, &words, &mut host);
    let text = match file {
        Some(name) => format!(in alloc; "to {}\n{}", name.as_str(), text.as_str())?,
        None => text,
    };
    let left = call.journal.to_vec(alloc)?;
    Ok(Answer { status, text, left })
}
