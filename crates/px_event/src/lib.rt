//! What comes to a running plan from outside, and what is answered to it.
//!
//! An `Entry` is an `Event` with the thread and the line that it comes from, and `Values` are the arguments of a
//! report; a `Reply` answers the post of an entry, and a `Cond` is what a script waits for. `encode` and `decode` lead to
//! the bytes of an entry and back, and `push_entry` appends them. `Names` are those of the interfaces that threads post
//! through; an entry with such a name has its bytes by `encode_named`, `decode_named` and `push_named`. `laws` says what
//! `==` means, and that no bytes are those of two fit entries, nor of two with their names.
#![tactic(auto)]

mod bytes;
mod cond;
mod entry;
mod event;
mod fault;
pub mod laws;
mod named;
mod names;
mod reply;
mod values;

pub use bytes::{
    ENTRY_LIMIT, NAMED_LIMIT, decode, decode_named, encode, encode_named, push_entry, push_named,
};
pub use cond::Cond;
pub use entry::{Entry, THREAD_LIMIT};
pub use event::{ARGUMENT_LIMIT, Event};
pub use fault::DecodeFault;
pub use named::NamedEntry;
pub use names::{Names, ThreadName};
pub use reply::Reply;
pub use values::Values;
