// Reports of files.
use std::test::Fail;
use text_report::laws::{memory_suffices, reports_stand};
use text_report::reports::report;

#[test]
fn a_line_for_each_text_and_the_total(rt: HostRuntime) -> Result<(), Fail> {
    let told = report(rt.alloc(), b"metric cell 5\none two\n\n")?;
    assert!(rt; told.as_str() == "text 2 2 35\ntext 3 0 0\ntotal 2 2\n");
    Ok(())
}

#[test]
fn the_first_fault_alone(rt: HostRuntime) -> Result<(), Fail> {
    let empty = report(rt.alloc(), b"")?;
    let byte = report(rt.alloc(), b"metric cell 5\na\tb\nc")?;
    let unended = report(rt.alloc(), b"metric cell 5\nab")?;
    assert!(rt; empty.as_str() == "fault file 1 11 0\n");
    assert!(rt; byte.as_str() == "fault text 2 5 1\n");
    assert!(rt; unended.as_str() == "fault file 2 10 2\n");
    Ok(())
}

#[test]
fn theorems_on_reports(rt: HostRuntime) {
    assert_eq!(rt; reports_stand(), 0);
    assert_eq!(rt; memory_suffices(), 0);
}
