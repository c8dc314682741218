// The names that a field may have: sides, clears, and what an item is.
ghost use Rattle.lines.specs.Names.{a_side, a_clear, an_item};

use lexer::faults::Cause;
use lexer::kinds::Kind;
use shapes::sides::{Clear, Side};

// A field that names a side. One kind over the values of this one and the two below would still want the names and their meaning of each.
#[derive(Clone, Copy)]
pub struct SideName;

impl Kind for SideName {
    type Value = Side;

    ghost worth = { λ _. a_side.worth };

    ghost fails = { λ _. a_side.fails };

    fn value(&self, bytes: &[u8]) -> Option<Side> {
        match bytes {
            b"left" => Some(Side::Left),
            b"right" => Some(Side::Right),
            _ => None,
        }
    }

    fn cause(&self) -> Cause {
        Cause::Keyword
    }
}

// A field that names the sides to clear.
#[derive(Clone, Copy)]
pub struct ClearName;

impl Kind for ClearName {
    type Value = Clear;

    ghost worth = { λ _. a_clear.worth };

    ghost fails = { λ _. a_clear.fails };

    fn value(&self, bytes: &[u8]) -> Option<Clear> {
        match bytes {
            b"none" => Some(Clear::None),
            b"left" => Some(Clear::Left),
            b"right" => Some(Clear::Right),
            b"both" => Some(Clear::Both),
            _ => None,
        }
    }

    fn cause(&self) -> Cause {
        Cause::Keyword
    }
}

// What an item is, by the keyword that it begins with.
#[derive(Clone, Copy)]
pub enum ItemWord {
    // `text`
    Text,
    // `box`
    Plain,
    // `shape`
    Shaped,
}

// A field that says what an item is.
#[derive(Clone, Copy)]
pub struct ItemName;

impl Kind for ItemName {
    type Value = ItemWord;

    ghost worth = { λ _. an_item.worth };

    ghost fails = { λ _. an_item.fails };

    fn value(&self, bytes: &[u8]) -> Option<ItemWord> {
        match bytes {
            b"text" => Some(ItemWord::Text),
            b"box" => Some(ItemWord::Plain),
            b"shape" => Some(ItemWord::Shaped),
            _ => None,
        }
    }

    fn cause(&self) -> Cause {
        Cause::Keyword
    }
}
