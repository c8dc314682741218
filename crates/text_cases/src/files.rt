// The lines and fields of a file.
use lexer::faults::Cause;
use lexer::fields::Fields;
use lexer::kinds::{Kind, Number, Within, Word};
use lexer::lines::{Lines, lines_stand};
use lexer::numerals::{number, numerals_stand};
use std::test::Fail;

#[test]
fn a_line_falls_into_fields(rt: HostRuntime) -> Result<(), Fail> {
    let mut lines = Lines::new(b"row 7\n");
    let mut fields = Fields::new(lines.next().ok_or("a line")?);
    assert!(rt; fields.take(&Word { text: b"row" }).is_ok());
    assert!(rt; fields.take(&Number) == Ok(7));
    assert!(rt; fields.end().is_ok());
    assert!(rt; lines.next().is_none());
    Ok(())
}

#[test]
fn numbers_are_decimal_without_leading_zeros(rt: HostRuntime) {
    assert_eq!(rt; number(b"65535"), Some(65535));
    assert_eq!(rt; number(b"0"), Some(0));
    assert!(rt; number(b"65536").is_none() && number(b"07").is_none() && number(b"").is_none());
    let row = Word { text: b"row" };
    assert!(rt; row.value(b"row").is_some() && row.value(b"rows").is_none());
    assert!(rt; Cause::Keyword.number() == 8 && Cause::Field.number() == 10);
}

#[test]
fn a_number_within_its_bounds(rt: HostRuntime) -> Result<(), Fail> {
    let within = Within { low: 1, high: 255 };
    let mut lines = Lines::new(b"1 255 256\n");
    let mut fields = Fields::new(lines.next().ok_or("a line")?);
    assert!(rt; fields.take(&within) == Ok(1) && fields.take(&within) == Ok(255));
    let fault = fields.take(&within).err().ok_or("256 is refused")?;
    assert!(rt; fault.cause.number() == 9 && fault.place == 6);
    Ok(())
}

#[test]
fn fields_by_place(rt: HostRuntime) -> Result<(), Fail> {
    let mut lines = Lines::new(b"row 7\n");
    let mut fields = Fields::new(lines.next().ok_or("a line")?);
    assert_eq!(rt; fields.next().ok_or("a first field")?.len(), 3);
    assert_eq!(rt; fields.fault(Cause::Number).place, 4);
    assert_eq!(rt; fields.next().ok_or("a second field")?.len(), 1);
    assert!(rt; fields.next().is_none());
    Ok(())
}

#[test]
fn theorems_on_lines_and_numbers(rt: HostRuntime) {
    assert_eq!(rt; lines_stand(), 0);
    assert_eq!(rt; numerals_stand(), 0);
}
