// Lays out a sheet file from standard input, and prints its boxes, or its first fault.
#![tactic(auto)]

use sheet_report::reports::{LONGEST, report};
use std::io;
use std::io::{Read, Write};

// One byte more than a file may have tells that it is too long.
const ENOUGH: u64 = LONGEST as u64 + 1;

fn main(rt: HostRuntime) -> io::Result<()> {
    let mut file = Vec::new(rt.alloc());
    rt.stdin().take(ENOUGH).read_to_end(&mut file)?;
    let out = report(rt.alloc(), file.as_slice())?;
    rt.stdout().write_all(out.as_slice())
}
