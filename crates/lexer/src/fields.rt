// The fields of a line, one after another.
ghost use Rattle.std.specs.Prelude.{◌≡◌};
ghost use Rattle.lexer.specs.FieldsLeft.{seen, field_at, read_at, ended_at, Stepped};
ghost use Rattle.lexer.specs.Forms.{fault as refusal};

use crate::faults::{Cause, Fault};
use crate::kinds::Kind;
use crate::lines::Line;
use crate::marks::{Mark, run};

// The fields of a line from a place on, parted by one space. One past the line's length is the place
// where no field is left. The line stays whole, since a fault tells the offset in it.
#[derive(Drop)]
pub struct Fields<'a> {
    line: Line<'a>,
    place: usize,
}

impl<'a> Fields<'a> {
    // All fields of a line.
    pub fn new(line: Line<'a>) -> Fields<'a>
        ensures line { result.line ≡ line.entry }
        ensures place { result.place ≡ 0 }
    {
        Fields { line, place: 0 }
    }

    // The refusal of the field at hand for this cause.
    pub fn fault(&self, cause: Cause) -> Fault
        ensures { result ≡ refusal cause self.now.place }
    {
        Fault {
            cause,
            place: self.place,
        }
    }

    // The field at hand, or nothing where it is missing or empty; the cursor moves past it. The cursor is no `Iterator`: in
    // `fields.take(..)` an iterator's own `take` would stand before the one here.
    pub fn next(&mut self) -> Option<&'a [u8]>
        ensures value { seen result ≡ field_at self.old }
        ensures stepped { Stepped self.old self.new }
    {
        let rest = self.line.bytes.get(self.place..)?;
        let width = run(rest, Mark::Space);
        let field = &rest[..width];
        if field.is_empty() {
            return None;
        }
        self.place += width + 1;
        Some(field)
    }

    // The worth of the field at hand, which must be there and of this kind; the cursor moves past it.
    pub fn take<K: Kind>(&mut self, kind: &K) -> Result<K::Value, Fault>
        ensures value { result ≡ read_at self.old (K.worth kind.now) (K.fails kind.now) }
        ensures stepped { Stepped self.old self.new }
    {
        let missing = self.fault(Cause::Field);
        let unfit = self.fault(kind.cause());
        let Some(field) = self.next() else {
            return Err(missing);
        };
        kind.value(field).ok_or(unfit)
    }

    // No field is left, and the line is ended.
    pub fn end(&self) -> Result<(), Fault>
        ensures { result ≡ ended_at self.now }
    {
        if self.place <= self.line.bytes.len() {
            return Err(self.fault(Cause::Field));
        }
        self.line.closed()
    }
}

#[cfg(test)]
mod tests {
    use super::*;
    use crate::kinds::{Number, Word};
    use crate::lines::Lines;
    use std::test::Fail;

    // `row 7` with two spaces, and a last line that is not ended.
    #[test]
    fn places_of_faults(rt: HostRuntime) -> Result<(), Fail> {
        let mut lines = Lines::new(b"row  7\nrow 7");
        let mut doubled = Fields::new(lines.next().ok_or("a first line")?);
        assert_eq!(rt; doubled.take(&Word { text: b"row" }), Ok(()));
        assert_eq!(rt;
            doubled.take(&Number),
            Err(Fault {
                cause: Cause::Field,
                place: 4,
            }),
            "an empty field"
        );
        let mut unended = Fields::new(lines.next().ok_or("a last line")?);
        assert_eq!(rt; unended.take(&Word { text: b"row" }), Ok(()));
        assert_eq!(rt; unended.take(&Number), Ok(7));
        assert_eq!(rt;
            unended.end(),
            Err(Fault {
                cause: Cause::Field,
                place: 5,
            }),
            "no line end"
        );
        Ok(())
    }
}
