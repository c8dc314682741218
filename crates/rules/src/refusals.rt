// Why a call on a sheet is refused.
ghost use Rattle.std.specs.Prelude.{◌≡◌};
ghost use Rattle.rules.specs.Refusals.{number_of};
ghost use Rattle.rules.specs.declared.refusals.Refusal.TheVariants as R;

use shapes::NoShape;

#[derive(Clone, Copy, PartialEq, Eq, Debug)]
pub enum Refusal {
    // Width, height or line height outside its range.
    BadSize = 1,
    // Too few cells for the rows.
    FewCells = 2,
    // Width, height, steps or extents that make no shape.
    NoShape = 3,
    // No paragraph is open.
    NoParagraph = 20,
    // A paragraph is open already.
    AlreadyOpen = 21,
    // The slip's number is not the open paragraph's.
    WrongSlip = 22,
    // Margins that leave no unit, or end past the sheet.
    BadMargins = 23,
    // A panel wider than the margins leave.
    WidePanel = 24,
    // A word wider than the margins leave.
    WideWord = 25,
    // No free place in the list of boxes.
    ListFull = 26,
    // No permitted place for a panel, or no row open to a word that fits it.
    NoPlace = 27,
    // As many paragraphs as there may be were opened.
    ManyParagraphs = 28,
}

impl Refusal {
    // The number that reports show.
    pub fn number(self) -> u8
        ensures { result ≡ number_of self }
    {
        self as u8
    }
}

// Numbers that make no shape.
impl From<NoShape> for Refusal {
    ghost from_gives = { λ _ y. y ≡ R.NoShape };

    fn from(_refusal: NoShape) -> Refusal {
        Refusal::NoShape
    }
}
