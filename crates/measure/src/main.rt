// Measures the texts of standard input. It prints a line for each text and the total, or the first fault alone; with a fault,
// too, it ends well.
#![tactic(auto)]

use std::io;
use std::io::Read;
use text_report::reports::report;

fn main(rt: HostRuntime) -> io::Result<()> {
    let mut file = Vec::new(rt.alloc());
    rt.stdin().read_to_end(&mut file)?;
    let text = report(rt.alloc(), file.as_slice())?;
    rt.print(text)
}
