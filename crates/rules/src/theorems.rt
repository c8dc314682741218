// What is proved of the rules themselves, each on a function whose contract it is.
ghost use Rattle.rules.specs.Examples.{TableStands};
ghost use Rattle.rules.specs.Law.{RunsAreRight};
ghost use Rattle.rules.specs.Theorems.{OneAnswer, OpeningIsLeast, RunsAreOrderly};

// Over any sequence of calls, refused ones among them, the sheet's account holds the best.
pub fn runs_are_right() -> u8
    ensures { RunsAreRight }
{
    0
}

// The worked examples come to what their table says.
pub fn examples_stand() -> u8
    ensures { TableStands }
{
    0
}

// Every account of a run is orderly: panels on the sheet, the open line in its band, the list within its places.
pub fn runs_are_orderly() -> u8
    ensures { RunsAreOrderly }
{
    0
}

// A call after any others has an answer, and only one: the computed one.
pub fn calls_have_one_answer() -> u8
    ensures { OneAnswer }
{
    0
}

// A paragraph begins at the least row from the cursor on that is clear of the panels on the cleared sides.
pub fn opening_is_least() -> u8
    ensures { OpeningIsLeast }
{
    0
}
