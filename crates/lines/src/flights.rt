// Flights of steps: `steps K W`, and then K pairs ROWS EXTENT.
ghost use Rattle.std.specs.Prelude.{◌≡◌, ◌≤◌, []};
ghost use Rattle.lexer.specs.LinesLeft.{line_of};
ghost use Rattle.shapes.specs.Staircase.{most_steps};
ghost use Rattle.lines.specs.Flights.{steps_form, steps_from, steps_said, climbed, flight_from, flown};

use lexer::faults::Fault;
use lexer::fields::Fields;
use lexer::kinds::{Number, Within, Word};
use lexer::lines::Line;
use shapes::stairs::{MOST_STEPS, Step, Steps};

// A width, and steps from the top down.
#[derive(Clone, Copy)]
pub struct StepsLine {
    pub width: u16,
    pub steps: Steps,
}

// The rows and the extents of so many steps, at most 16; the cursor moves past them.
fn take_steps(fields: &mut Fields<'_>, count: u16) -> Result<Steps, Fault>
    requires { count ≤ most_steps }
    ensures value { climbed fields.new.place result ≡ steps_from count fields.old.line.bytes.now fields.old.place [] }
    ensures line { fields.new.line ≡ fields.old.line }
{
    let mut steps = Steps::default();
    for _ in 0..count {
        let rows = fields.take(&Number)?;
        let extent = fields.take(&Number)?;
        steps.push(Step { rows, extent });
    }
    Ok(steps)
}

// `K W` and K pairs ROWS EXTENT, with K 1 to 16, as they stand behind the keyword of a flight; the cursor moves past them.
// The cast is proved to lose nothing; `try_from` would only add an `unwrap`.
pub fn take_flight(fields: &mut Fields<'_>) -> Result<StepsLine, Fault>
    ensures value { flown fields.new.place result ≡ flight_from fields.old.line.bytes.now fields.old.place }
    ensures line { fields.new.line ≡ fields.old.line }
{
    let count = fields.take(&Within {
        low: 1,
        high: MOST_STEPS as u16,
    })?;
    let width = fields.take(&Number)?;
    let steps = take_steps(fields, count)?;
    Ok(StepsLine { width, steps })
}

// `steps K W` and K pairs ROWS EXTENT, with K 1 to 16. Whether they make a staircase is left open.
pub fn steps_line(line: Line<'_>) -> Result<StepsLine, Fault>
    ensures { steps_said result ≡ steps_form (line_of line.entry) }
{
    let mut fields = Fields::new(line);
    fields.take(&Word { text: b"steps" })?;
    let flight = take_flight(&mut fields)?;
    fields.end()?;
    Ok(flight)
}
