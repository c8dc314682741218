// Placing a panel.
ghost use Rattle.std.specs.Prelude.{◌≡◌, OnErr, OnOk};
ghost use Rattle.rows.specs.Asked.{wanted};
ghost use Rattle.rows.specs.Fit.{Stays};
ghost use Rattle.rules.specs.Runs.{panels};
ghost use Rattle.sheet.specs.Told.{Told};
ghost use Rattle.sheet.specs.Stores.{view, Keeps, panel_answer};

use crate::store::Store;
use places::parts::Place;
use rows::ground::Ground;
use rules::boxes::{BoxRecord, PanelBox};
use rules::refusals::Refusal;
use shapes::Shape;
use shapes::orders::Order;

impl<'a> Store<'a> {
    pub(crate) fn panel<S: Shape + Drop>(&mut self, order: Order<S>) -> Result<Place, Refusal>
        ensures keeps { Keeps self.old self.new }
        ensures same { OnErr result (view self.new ≡ view self.old) }
        ensures rows { OnOk result (Stays self.old.rows self.new.rows) }
        ensures para { self.new.para ≡ self.old.para }
        ensures account { Told (panels (wanted order.side order.clear (S.model order.shape))) (panel_answer result) (view self.old) (view self.new) }
    {
        let para = self.para.ok_or(Refusal::NoParagraph)?;
        let width = order.shape.width();
        if width > para.margins.room() {
            return Err(Refusal::WidePanel);
        }
        if self.full() {
            return Err(Refusal::ListFull);
        }
        // Rules 4 to 6, and clear.
        let start = self
            .top
            .max(para.top)
            .max(self.bottoms.cleared(order.clear));
        let ground = Ground {
            margins: para.margins,
            line: self.line,
            current: self.current,
        };
        let place = self
            .rows
            .best_place(ground, start, order.side, &order.shape)
            .ok_or(Refusal::NoPlace)?;
        let height = order.shape.height();
        self.rows.take_in(order.side, place, &order.shape);
        self.list[self.used] = BoxRecord::Panel(PanelBox {
            side: order.side,
            x: place.x,
            y: place.y,
            width,
            height,
        });
        self.used += 1;
        self.top = place.y;
        self.bottoms = self.bottoms.with(order.side, place.y + height);
        Ok(place)
    }
}
