// The parts of a program that refuse.
ghost use Rattle.std.specs.Prelude.{Some};
ghost use Rattle.fault_lines.specs.Layers.{layer_word};

use std::fmt;

// The part that refuses: the file's form, a text, or a call on a sheet.
#[derive(Clone, Copy, PartialEq, Eq, Debug)]
pub enum Layer {
    File,
    Text,
    Sheet,
}

impl fmt::Display for Layer {
    ghost output = { λ layer. Some (layer_word layer) };

    fn fmt<W: fmt::Write>(&self, f: &mut fmt::Formatter<W>) -> fmt::Result {
        match self {
            Layer::File => write!(f, "file"),
            Layer::Text => write!(f, "text"),
            Layer::Sheet => write!(f, "sheet"),
        }
    }
}
