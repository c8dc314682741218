// The items of a paragraph.
ghost use Rattle.std.specs.Prelude.{◌≡◌, OnOk};
ghost use Rattle.sheet.specs.Sheets.{open_number};
ghost use Rattle.sheet_file.specs.Cursors.{ahead, number};
ghost use Rattle.sheet_file.specs.Done.{fault_in, Done, Goes};
ghost use Rattle.sheet_file.specs.Plans.{items_plan};
ghost use Rattle.sheet_file.specs.Setters.{setting_of, Holds};
ghost use Rattle.sheet_file.specs.Turns.{Turned, Forward};

use crate::setters::Setter;
use items::faults::Located;
use items::paragraphs::set_item;

// What a setter holds is said at each call: it is of the setter before and after, which no type can say.
impl<'s, 'a, 'f> Setter<'s, 'a, 'f> {
    // Sets the next line as an item.
    fn next_item(&mut self) -> Result<(), Located>
        ensures number { open_number self.new.sheet.now ≡ open_number self.old.sheet.now }
        ensures holds { Holds self.old self.new }
        ensures forward { OnOk result (Forward 1 self.old.cursor self.new.cursor) }
        ensures told { Turned Done (items_plan (setting_of self.old)) self.old.cursor result self.new.cursor self.old.sheet.now self.new.sheet.now }
    {
        let line = self.cursor.next()?;
        let done = set_item(
            self.sheet,
            &self.desk.scale,
            &self.desk.shelf,
            line,
            self.words,
            self.runs,
        );
        self.cursor.judge(done)
    }

    // Sets the next `count` lines as items, up to the first fault.
    pub(crate) fn set_items(&mut self, count: u16) -> Result<(), Located>
        ensures number { open_number self.new.sheet.now ≡ open_number self.old.sheet.now }
        ensures holds { Holds self.old self.new }
        ensures forward { OnOk result (Forward count self.old.cursor self.new.cursor) }
        ensures told { Goes (λ es fs. Done (items_plan (setting_of self.old) count (number self.old.cursor) (ahead self.old.cursor)) es fs (fault_in result)) self.old.sheet.now self.new.sheet.now }
    {
        for _ in 0..count {
            self.next_item()?;
        }
        Ok(())
    }
}
