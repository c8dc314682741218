// Setting one word: on the open line, or on a new one.
ghost use Rattle.std.specs.Prelude.{◌≡◌, ◌+◌, ◌^◌, ◌<◌, ◌≤◌, length, IfSome, Some, OnErr, nat_le};
ghost use Rattle.places.specs.declared.parts.Line.{Line};
ghost use Rattle.rules.specs.Account.{reserved};
ghost use Rattle.text.specs.Measure.{FitAdvance};
ghost use Rattle.sheet.specs.View.{start_of};
ghost use Rattle.sheet.specs.Told.{WordTold};
ghost use Rattle.sheet.specs.Steps.{box_at, RoomLeft, Joined, Closed, Open, FitOpen};
ghost use Rattle.sheet.specs.Stores.{view, Sets};

use crate::store::Store;
use places::parts::{Line, Span};
use rules::boxes::{BoxRecord, LineBox};
use rules::paragraphs::Paragraph;
use rules::refusals::Refusal;

// The box of these words on a line of this band.
fn box_of(words: Line, band: Span) -> LineBox
    ensures { result ≡ box_at band.from words }
{
    LineBox {
        x: band.from,
        y: words.top,
        width: words.used,
        words: words.words,
    }
}

impl<'a> Store<'a> {
    // Whether every place of the list is used or reserved.
    pub(crate) fn full(&self) -> bool
        ensures { result ≡ nat_le (length self.now.list.now) (self.now.used + reserved self.now.current) }
    {
        self.list.len() <= self.used + usize::from(self.current.is_some())
    }

    // The first row open to a new line.
    pub(crate) fn start_row(&self) -> u32
        ensures { result ≡ start_of self.now.line self.now.cursor self.now.current }
    {
        // By a match: a proof is told nothing of what a closure reads of the store.
        match self.current {
            None => self.cursor,
            Some(words) => words.top + self.line,
        }
    }

    // Closes the open line, if any: its box goes to the list, and the cursor to its bottom.
    pub(crate) fn close(&mut self, margins: Span)
        requires { margins.to ≤ self.old.rows.width }
        ensures named { self.new.list.ghost_name ≡ self.old.list.ghost_name }
        ensures after { Closed (view self.old) margins (view self.new) }
    {
        if let Some(words) = self.current.take() {
            let band = self.rows.band(margins, words.top, self.line);
            self.list[self.used] = BoxRecord::Line(box_of(words, band));
            self.used += 1;
            self.cursor = words.top + self.line;
        }
    }

    // The open line, as the box that it would have if it closed now.
    pub(crate) fn open_line(&self) -> Option<LineBox>
        ensures { Open (view self.now) result }
    {
        let para = self.para?;
        let words = self.current?;
        let band = self.rows.band(para.margins, words.top, self.line);
        Some(box_of(words, band))
    }

    // How many units the line of these words leaves behind them and a space.
    pub(crate) fn room_left(&self, words: Line, margins: Span, space: u8) -> Option<u32>
        requires margins { margins.to ≤ self.now.rows.width }
        requires ends { words.top + self.now.line ≤ self.now.rows.height }
        ensures fits { IfSome result (λ n. words.used + space + n < 2 ^ 32) }
        ensures told { RoomLeft (view self.now) margins space words result }
    {
        let band = self.rows.band(margins, words.top, self.line);
        let room = band.room().checked_sub(words.used)?;
        room.checked_sub(u32::from(space))
    }

    // The open line with a word of this advance joined to it, if it fits.
    fn joined(&self, margins: Span, advance: u32, space: u8) -> Option<Line>
        requires margins { margins.to ≤ self.now.rows.width }
        requires advance { FitAdvance advance }
        ensures joined { Joined (view self.now) margins space advance result }
        ensures fit { (l : Line) → result ≡ Some l → FitOpen self.now.line self.now.rows l }
    {
        let words = self.current?;
        let room = self.room_left(words, margins, space)?;
        if advance > room {
            return None;
        }
        Some(Line {
            top: words.top,
            used: words.used + u32::from(space) + advance,
            words: words.words + 1,
        })
    }

    // Sets one word of the open paragraph, which is passed on by who has looked whether there is one.
    pub(crate) fn word(&mut self, para: Paragraph, advance: u32, space: u8) -> Result<(), Refusal>
        requires para { self.old.para ≡ Some para }
        requires advance { FitAdvance advance }
        ensures sets { Sets self.old self.new }
        ensures same { OnErr result (view self.new ≡ view self.old) }
        ensures account { WordTold para space advance result (view self.old) (view self.new) }
    {
        if advance > para.margins.room() {
            return Err(Refusal::WideWord);
        }
        if let Some(longer) = self.joined(para.margins, advance, space) {
            self.current = Some(longer);
            return Ok(());
        }
        if self.full() {
            return Err(Refusal::ListFull);
        }
        // The row is looked for before the open line closes: a refusal leaves it open.
        let start = self.start_row();
        let top = self
            .rows
            .least_row(para.margins, self.line, start, advance)
            .ok_or(Refusal::NoPlace)?;
        self.close(para.margins);
        self.current = Some(Line {
            top,
            used: advance,
            words: 1,
        });
        self.top = self.top.max(top);
        Ok(())
    }
}
