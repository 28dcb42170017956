//! Reads and writes entries and journals over a disk in memory, and says what isn't as it has to be.
//!
//! All bytes were worked out by hand, from the forms of docs/FORMATS.md. They stand here and not in rows of a file, as most
//! are made of a few by a change of each byte, a stop at each device call, or a length that is the greatest. What doesn't hold
//! is printed with what came in place of it, and at the end of each table how many of its rows hold.
//!
//! `entries` has entries alone, `journal` what makes journals and reads them, `stops` a stop at each device call, `changes`
//! each byte changed and each front, `files` what is found where a journal is made, and `named` journals with names.
#![tactic(auto)]

mod changes;
mod entries;
mod files;
mod journal;
mod named;
mod stops;

fn main(rt: HostRuntime) -> anyhow::Result<()> {
    let alloc = rt.alloc();
    let lengths = entries::lengths_held(&rt, alloc)?;
    let changes = entries::changes_held(&rt, alloc)?;
    println!(rt; "entries: {lengths} lengths and {changes} changes hold")?;
    let stops = stops::held(&rt, alloc)?;
    println!(rt; "journals: {stops} images of stops hold")?;
    let changes = changes::held(&rt, alloc)?;
    let fronts = changes::fronts_held(&rt, alloc)?;
    println!(rt; "journals: {changes} changes and {fronts} fronts hold")?;
    let files = files::held(&rt, alloc)?;
    let counts = files::counts_held(&rt, alloc)?;
    println!(rt; "journals: {files} files that were there and {counts} greatest counts hold")?;
    let named = named::held(&rt, alloc)?;
    println!(rt; "journals with names: {named} rows hold")?;
    Ok(())
}
