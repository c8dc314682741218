// What the reaches of panels say of the rules. Each function bears one theorem and answers nothing.
ghost use Rattle.reaches.specs.Theorems.{AreasLeaveTheBand, BoxesLeaveTheFree};

// What the areas' reaches leave is the band of those rows.
pub fn areas_leave_the_band() -> u8
    ensures { AreasLeaveTheBand }
{
    0
}

// What the boxes' reaches leave is what is free on that row.
pub fn boxes_leave_the_free() -> u8
    ensures { BoxesLeaveTheFree }
{
    0
}
