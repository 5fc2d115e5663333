use crate::part::Item;
use sqlite_items::Items;

/// A text's tree: what the module is made of in the order of the text, how many tokens stand outside procedures,
/// Declares and Types, line ends and colons aside, and the number of the text's last line.
#[derive(Debug, Drop)]
pub struct Tree {
    pub items: Items<Item>,
    pub tokens: usize,
    pub last_line: u32,
}
