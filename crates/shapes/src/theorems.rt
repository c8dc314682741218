// What the definitions of the contracts amount to: each function here bears one theorem.
ghost use Rattle.shapes.specs.Theorems.{MadeAreReal, RowsHaveTheirSteps};

// The extent of a row is that of the one step that the row lies in, and 0 past the last step.
pub fn rows_have_their_steps() -> u8
    ensures { RowsHaveTheirSteps }
{
    0
}

// What a constructor makes is a shape, and a box is refused only where it would be none.
pub fn made_are_real() -> u8
    ensures { MadeAreReal }
{
    0
}
