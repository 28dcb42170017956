//! Kept conditions: the truth of each condition of a plan's nodes, looked at again where a source of it was touched.
//!
//! A condition is a constant, or made of parts (`part`): what is evaluated whole, and `&&`, `||` or a negated `||` over two
//! parts. `laying` lays the parts of all conditions (`kinds` numbers these, `copies` copies what is evaluated whole), those in a
//! part before it; `sources` numbers the sources, and `reading` lists which parts read which; `watching` puts those that
//! compare a name with constants in order. `noticing` notes what depends on touched sources, but for comparisons whose truth
//! stays (`still`) and those that a report doesn't cross (`crossing`), `looking` looks at it again, and `carrying` carries a
//! truth that changed up as far as something changes; `firsts` tells the source that has a cell. `cached` is the table.
//!
//! `specs/Network.antt` says what parts spell and when their truths agree, `specs/Laying.antt` which parts are laid,
//! `specs/Still.antt` and `specs/Watching.antt` which comparisons stay, `specs/Carrying.antt` what a change does,
//! `specs/Costs.antt` at how many parts is looked for a touched source, `specs/Firsts.antt` which source has a cell,
//! `specs/Cached.antt` what the table is to contracts, and `specs/Keeping.antt` what every table keeps.
#![tactic(auto)]

mod cached;
mod carrying;
mod copies;
mod crossing;
mod firsts;
mod kinds;
mod laying;
mod looking;
mod noticing;
mod part;
mod reading;
mod sources;
mod still;
mod watching;

pub use cached::Cached;
