// The lines and fields of a file.
use lexer::faults::Cause;
use lexer::fields::Fields;
use lexer::kinds::{Kind, Number, Word};
use lexer::lines::Lines;
use lexer::numerals::number;
use std::test::Fail;

#[test]
fn a_line_falls_into_fields(rt: HostRuntime) -> Result<(), Fail> {
    let mut lines = Lines::new(b"row 7\n");
    let mut fields = Fields::new(lines.next().ok_or("a line")?);
    assert!(rt; fields.take(&Word { text: b"row" }).is_ok());
    assert!(rt; fields.take(&Number) == Ok(7));
    assert!(rt; fields.end().is_ok());
    assert!(rt; lines.next().is_none());
    Ok(())
}

#[test]
fn numbers_are_decimal_without_leading_zeros(rt: HostRuntime) {
    assert_eq!(rt; number(b"65535"), Some(65535));
    assert_eq!(rt; number(b"0"), Some(0));
    assert!(rt; number(b"65536").is_none() && number(b"07").is_none() && number(b"").is_none());
    let row = Word { text: b"row" };
    assert!(rt; row.value(b"row").is_some() && row.value(b"rows").is_none());
    assert!(rt; Cause::Keyword.number() == 8 && Cause::Field.number() == 10);
}
