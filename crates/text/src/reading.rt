// Reading text: the fields of a line, and words. What stands there is said by the definitions in specs/.
mod fields;
mod words;

pub use crate::reading::fields::{count, field};
pub use crate::reading::words::same;
