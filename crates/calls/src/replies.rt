// What is printed.
ghost use Rattle.std.specs.Prelude.{◌≡◌, Some};
ghost use Rattle.calls.specs.Shown.{refused_words, reply_words, row_line, denied_number};
ghost use Rattle.calls.specs.declared.replies.Denied.TheVariants.{Call, Text};
ghost use Rattle.rules.specs.declared.refusals.Refusal.TheVariants as R;
ghost use Rattle.text.specs.declared.faults.TextFault.TheVariants.{Metrics};

use metrics::Unfit;
use places::parts::Place;
use rules::boxes::{BoxRecord, LineBox, Totals};
use rules::refusals::Refusal;
use shapes::NoShape;
use sheet::answers::Flowed;
use std::fmt;
use text::{TextFault, Unmeasured};

// What a line of a script is answered.
#[derive(Clone, Copy)]
pub enum Reply {
    Sheet,
    Metric,
    // The paragraph's number.
    Opened(u32),
    Panel(Place),
    Flowed(Flowed),
    Ended,
    Totals(Totals),
    Skipped,
}

// Why a line is answered by a refusal.
#[derive(Clone, Copy)]
pub enum Denied {
    // The call was refused.
    Call(Refusal),
    // There is no such metrics, or the text is not measured.
    Text(TextFault),
}

impl Denied {
    // The number that is printed.
    fn number(self) -> u8
        ensures { result ≡ denied_number self }
    {
        match self {
            Denied::Call(refusal) => refusal.number(),
            Denied::Text(fault) => fault.cause(),
        }
    }
}

impl From<Refusal> for Denied {
    ghost from_gives = { λ x y. y ≡ Call x };

    fn from(refusal: Refusal) -> Denied {
        Denied::Call(refusal)
    }
}

impl From<NoShape> for Denied {
    ghost from_gives = { λ _ y. y ≡ Call R.NoShape };

    fn from(refusal: NoShape) -> Denied {
        Denied::Call(Refusal::from(refusal))
    }
}

impl From<Unmeasured<'_>> for Denied {
    ghost from_gives = { λ x y. y ≡ Text x.fault };

    fn from(back: Unmeasured<'_>) -> Denied {
        Denied::Text(back.fault)
    }
}

impl From<Unfit> for Denied {
    ghost from_gives = { λ _ y. y ≡ Text Metrics };

    fn from(unfit: Unfit) -> Denied {
        Denied::Text(unfit.into())
    }
}

// What a line is answered, or why it is refused.
pub type Answer = Result<Reply, Denied>;

// A line that is printed.
#[derive(Clone, Copy)]
pub enum Row {
    // An answer, and the open line that its call left.
    Answer(Answer, Option<LineBox>),
    // At the end: each box of the list, and what they come to.
    Box(BoxRecord),
    Total(Totals),
}

impl fmt::Display for Denied {
    ghost output = { λ x. Some (refused_words (denied_number x)) };

    fn fmt<W: fmt::Write>(&self, f: &mut fmt::Formatter<W>) -> fmt::Result {
        let cause = self.number();
        write!(f, "refused {cause}")
    }
}

impl fmt::Display for Reply {
    ghost output = { λ x. Some (reply_words x) };

    fn fmt<W: fmt::Write>(&self, f: &mut fmt::Formatter<W>) -> fmt::Result {
        match *self {
            Reply::Sheet => write!(f, "sheet"),
            Reply::Metric => write!(f, "metric"),
            Reply::Opened(number) => write!(f, "opened {number}"),
            Reply::Panel(Place { x, y }) => write!(f, "panel {x} {y}"),
            Reply::Flowed(Flowed { set, stopped: None }) => write!(f, "flowed {set}"),
            Reply::Flowed(
                Flowed {
                    set,
                    stopped: Some(refusal),
                },
            ) => {
                let why = Denied::Call(refusal);
                write!(f, "flowed {set} {why}")
            }
            Reply::Ended => write!(f, "ended"),
            Reply::Totals(
                Totals {
                    panels,
                    lines,
                    words,
                },
            ) => write!(f, "totals {panels} {lines} {words}"),
            Reply::Skipped => write!(f, "skipped"),
        }
    }
}

impl fmt::Display for Row {
    ghost output = { λ x. Some (row_line x) };

    fn fmt<W: fmt::Write>(&self, f: &mut fmt::Formatter<W>) -> fmt::Result {
        match *self {
            Row::Answer(answer, line) => {
                match answer {
                    Ok(reply) => write!(f, "{reply}")?,
                    Err(denied) => write!(f, "{denied}")?,
                }
                if let Some(LineBox { x, y, width, words }) = line {
                    write!(f, " open {x} {y} {width} {words}")?;
                }
                write!(f, "\n")
            }
            Row::Box(record) => write!(f, "{record}\n"),
            Row::Total(totals) => write!(f, "{totals}\n"),
        }
    }
}
