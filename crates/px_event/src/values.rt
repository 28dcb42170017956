// The arguments of a report.
use px_value::{Series, Value};

/// Values in order.
pub type Values = Series<Value>;
