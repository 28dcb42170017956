//! The top call: the program over the queued machine, which may go to another thread (`proofs/Sending.antt`).
#![tactic(auto)]

mod top;

pub use top::plexil;
