// A fault of a text, told on its line.
ghost use Rattle.fault_lines.specs.declared.layers.Layer.TheVariants.{Text};

use crate::layers::Layer;
use crate::locations::on_line;
use crate::tellings::{FaultLine, Reason};
use std::test::Fail;

// A byte that no text may hold, at this offset.
#[derive(Clone, Copy)]
struct BadByte(usize);

impl Reason for BadByte {
    ghost layer_of = { λ _. Text };

    ghost cause_of = { λ _. 7 };

    ghost place_of = { λ b. b.0 };

    fn layer(&self) -> Layer {
        Layer::Text
    }

    fn cause(&self) -> u8 {
        7
    }

    fn place(&self) -> usize {
        self.0
    }
}

#[test]
fn a_fault_is_told_on_its_line(rt: HostRuntime) -> Result<(), Fail> {
    let read: Result<u8, BadByte> = Err(BadByte(12));
    let located = on_line(3, read).err().ok_or("a fault")?;
    let shown = format!(in rt.alloc(); "{located}")?;
    assert!(rt; shown.as_str() == "fault text 3 7 12\n");
    let line = format!(in rt.alloc(); "{}", FaultLine::from(located))?;
    assert_eq!(rt; line.as_str(), shown.as_str());
    Ok(())
}

#[test]
fn what_is_well_stays(rt: HostRuntime) {
    let read: Result<u8, BadByte> = Ok(5);
    assert!(rt; on_line(3, read).is_ok_and(|value| value == 5));
}
