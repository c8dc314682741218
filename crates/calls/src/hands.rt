// What is kept from line to line.
ghost use Rattle.calls.specs.Hands.{InHand, in_hand_prop};

use scales::Scale;
use sheet::sheet::Sheet;
use sheet::slips::Slip;

// How a hand begins.
pub mod make;

// The sheet, the slip of its open paragraph, if the script opened one and has not ended it, how many it opened, and the
// metrics that texts are measured by.
pub struct Hand<'a> {
    pub(crate) sheet: Sheet<'a>,
    pub(crate) slip: Option<Slip>,
    pub(crate) opened: u32,
    pub(crate) scale: Scale,
    ghost own: { InHand slip sheet } by { in_hand_prop slip sheet },
}
