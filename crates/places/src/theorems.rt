// What is proved of places and rows with no code involved. Each function bears one theorem and answers nothing.
ghost use Rattle.places.specs.Theorems.{BandIsLeft, FirstRowDecides, GoesDown, GoodDecides, LineKeepsDown, OneBest, OneLeast, OnePanelMore, RoomGrows, RowDecides, TopsDecide, TryingFinds, TryingSeeks};

// A panel has one best place at most.
pub fn one_best_place() -> u8
    ensures { OneBest }
{
    0
}

// A word's line has one least row at most.
pub fn one_least_row() -> u8
    ensures { OneLeast }
{
    0
}

// A band is what the areas leave of the margins.
pub fn band_is_what_is_left() -> u8
    ensures { BandIsLeft }
{
    0
}

// One panel more takes of a line's band what its widest row there takes.
pub fn one_panel_more() -> u8
    ensures { OnePanelMore }
{
    0
}

// Rules 4, 5 and 6 allow the rows from the greatest top on.
pub fn tops_decide() -> u8
    ensures { TopsDecide }
{
    0
}

// Rules 4, 5, 6 and clear allow the rows from the first row on.
pub fn first_row_decides() -> u8
    ensures { FirstRowDecides }
{
    0
}

// Rules 1, 2, 3 and 7 are decided by the boxes on the panel's top row.
pub fn row_decides() -> u8
    ensures { RowDecides }
{
    0
}

// Going down, the boxes leave no less.
pub fn room_grows() -> u8
    ensures { RoomGrows }
{
    0
}

// Going down, a panel leaves the open line no less.
pub fn line_keeps_down() -> u8
    ensures { LineKeepsDown }
{
    0
}

// Going down, what may stand may stand until the sheet ends.
pub fn rows_go_down() -> u8
    ensures { GoesDown }
{
    0
}

// A row has a permitted place exactly when it is good.
pub fn good_decides() -> u8
    ensures { GoodDecides }
{
    0
}

// Trying the rows one by one finds the best place, or there is none.
pub fn trying_finds() -> u8
    ensures { TryingFinds }
{
    0
}

// Trying the rows one by one finds the least row of a line, or there is none.
pub fn trying_seeks() -> u8
    ensures { TryingSeeks }
{
    0
}
