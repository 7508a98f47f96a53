//! Names.
use sqlite_items::Items;

/// A name as ASCII text: 1 to 16 letters, digits, `_` or `-`, the first a letter; `check` refuses others.
pub type Name = Items<u8>;
