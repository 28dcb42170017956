// The cells of what runs a plan.
use crate::marked::Marked;
use px_value::Value;

/// Values by number.
pub type Cells = Marked<Value>;
