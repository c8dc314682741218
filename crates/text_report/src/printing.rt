// What is printed of the texts of a file.
ghost use Rattle.std.specs.Prelude.{◌≡◌, ◌^◌, ◌<◌, IfOk, Some, string_bytes};
ghost use Rattle.text_report.specs.Printing.{words_in, total_of, total_line, listed};

use crate::texts::Measured;
use std::alloc::{AllocError, Global};
use std::fmt;

// How many texts there are, and how many words they have together.
#[derive(Clone, Copy)]
pub struct Total {
    pub texts: usize,
    pub words: usize,
}

impl fmt::Display for Total {
    ghost output = { λ t. Some (total_line t) };

    fn fmt<W: fmt::Write>(&self, f: &mut fmt::Formatter<W>) -> fmt::Result {
        let texts = self.texts;
        let words = self.words;
        write!(f, "total {texts} {words}\n")
    }
}

// The total of these texts.
fn sum(texts: &[Measured]) -> Total
    requires { words_in texts.now < 2 ^ 64 }
    ensures { result ≡ total_of texts.now }
{
    Total {
        texts: texts.len(),
        words: texts.iter().map(|text| text.words).sum(),
    }
}

// A line for each text, and the total.
pub(crate) fn list(heap: Global, texts: &[Measured]) -> Result<String, AllocError>
    requires { words_in texts.now < 2 ^ 64 }
    ensures { IfOk result (λ s. string_bytes s ≡ listed texts.now) }
{
    let mut out = String::new(heap);
    for text in texts {
        write!(out, "{text}")?;
    }
    let total = sum(texts);
    write!(out, "{total}")?;
    Ok(out)
}
