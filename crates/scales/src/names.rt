// The names of the two families of metrics.
ghost use Rattle.scales.specs.Names.{a_family};

use crate::Family;
use lexer::faults::Cause;
use lexer::kinds::Kind;

// A field that names a family of metrics. One kind over all such values would still want the names and their meaning of each.
#[derive(Clone, Copy)]
pub struct FamilyName;

impl Kind for FamilyName {
    type Value = Family;

    ghost worth = { λ _. a_family.worth };

    ghost fails = { λ _. a_family.fails };

    fn value(&self, bytes: &[u8]) -> Option<Family> {
        match bytes {
            b"cell" => Some(Family::Cell),
            b"table" => Some(Family::Table),
            _ => None,
        }
    }

    fn cause(&self) -> Cause {
        Cause::Keyword
    }
}
