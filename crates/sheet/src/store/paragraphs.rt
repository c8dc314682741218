// Opening and ending a paragraph.
ghost use Rattle.std.specs.Prelude.{◌≡◌, true, ◌&&◌, is_ok, IfOk, IfErr, Some, OnErr, nat_le, nat_lt};
ghost use Rattle.rules.specs.Runs.{opens, ends};
ghost use Rattle.sheet.specs.View.{number_in};
ghost use Rattle.sheet.specs.Told.{Told};
ghost use Rattle.sheet.specs.Stores.{view, Keeps, open_answer, end_answer};

use crate::slips::Slip;
use crate::store::Store;
use places::parts::Span;
use rules::paragraphs::Paragraph;
use rules::refusals::Refusal;
use shapes::sides::Clear;

// The most paragraphs that a sheet may have.
const MOST_PARAGRAPHS: u16 = 65535;

// Whether the margins leave a unit, on a sheet of this width.
fn leave_a_unit(margins: Span, width: u32) -> bool
    ensures { result ≡ (nat_lt margins.from margins.to && nat_le margins.to width) }
{
    margins.from < margins.to && margins.to <= width
}

impl<'a> Store<'a> {
    pub(crate) fn open(&mut self, margins: Span, clear: Clear) -> Result<Slip, Refusal>
        ensures keeps { Keeps self.old self.new }
        ensures same { OnErr result (view self.new ≡ view self.old) }
        ensures memory { (self.new.rows ≡ self.old.rows) × (self.new.list.now ≡ self.old.list.now) }
        ensures number { IfOk result (λ s. number_in self.new.para ≡ Some s.number) }
        ensures account { Told (opens margins clear) (open_answer result) (view self.old) (view self.new) }
    {
        if self.para.is_some() {
            return Err(Refusal::AlreadyOpen);
        }
        if self.count >= MOST_PARAGRAPHS {
            return Err(Refusal::ManyParagraphs);
        }
        if !leave_a_unit(margins, self.rows.width()) {
            return Err(Refusal::BadMargins);
        }
        self.count += 1;
        self.cursor = self.cursor.max(self.bottoms.cleared(clear));
        self.para = Some(Paragraph {
            number: self.count,
            margins,
            top: self.cursor,
        });
        Ok(Slip { number: self.count })
    }

    pub(crate) fn end(&mut self, mut slip: Slip) -> Result<(), (Refusal, Slip)>
        ensures keeps { Keeps self.old self.new }
        ensures same { IfErr result (λ b. (view self.new ≡ view self.old) × (b.1 ≡ slip)) }
        ensures rows { self.new.rows ≡ self.old.rows }
        ensures own { number_in self.old.para ≡ Some slip.number → is_ok result ≡ true }
        ensures account { Told (ends slip.number) (end_answer result) (view self.old) (view self.new) }
    {
        let Some(para) = self.para else {
            return Err((Refusal::NoParagraph, slip));
        };
        if para.number != slip.number {
            return Err((Refusal::WrongSlip, slip));
        }
        self.close(para.margins);
        self.para = None;
        slip.number = 0;
        Ok(())
    }
}
