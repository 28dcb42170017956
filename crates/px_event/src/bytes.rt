// The bytes of an entry: its fields, its values, and the whole, without or with the name of its interface.
mod entries;
mod fields;
mod named;
mod values;

pub use entries::{ENTRY_LIMIT, decode, encode, push_entry};
pub use named::{NAMED_LIMIT, decode_named, encode_named, push_named};
