// Words, advances and measured texts.
use metrics::Unfit;
use metrics::advances::Metrics;
use metrics::cells::Cell;
use metrics::examples::examples_stand;
use metrics::rounding::{rounded, rounding_is_nearest};
use metrics::tables::Table;
use metrics::tables::house::house_by_rule;
use std::test::Fail;
use text::{Room, Run, TextFault, Word, fault, measure, sums_are_held};
use words::alphabet::bad_byte;
use words::laws::{half_as_many_words, words_are_runs, words_are_these};
use words::spans::{Span, count, next_word, word_end};

#[test]
fn words_of_a_text(rt: HostRuntime) {
    let text = b" one  two ";
    assert_eq!(rt; count(text), 2);
    assert_eq!(rt; word_end(text, 1), 4);
    let second = Span {
        place: 6,
        length: 3,
    };
    assert_eq!(rt; next_word(text, 4), Some(second));
    assert!(rt; next_word(text, 9).is_none());
    assert!(rt; bad_byte(text).is_none());
    assert_eq!(rt; bad_byte(b"a\tb"), Some(1));
}

#[test]
fn advances_are_rounded(rt: HostRuntime) -> Result<(), Fail> {
    assert_eq!(rt; rounded(2500), 3);
    assert_eq!(rt; rounded(2499), 2);
    assert_eq!(rt; rounded(250), 0);
    assert!(rt; Cell::new(255).is_ok() && Cell::new(256).is_err() && Cell::new(0).is_err());
    assert!(rt; Table::new(&[500], 10).is_err() && Table::house(121).is_err());
    let house = Table::house(9)?;
    assert_eq!(rt; house.advance(b'n'), 5);
    Ok(())
}

#[test]
fn a_text_is_refused_before_it_is_measured(rt: HostRuntime) -> Result<(), Fail> {
    let words = [Word::default(); 1];
    let runs = [Run::default(); 2];
    assert!(rt; fault(b"one", &words, &runs).is_none());
    let bad = fault(b"o\tne", &words, &runs).ok_or("a bad byte")?;
    assert!(rt; bad.cause() == 5 && bad.place() == 1);
    let many = fault(b"one two", &words, &runs).ok_or("too many words")?;
    assert_eq!(rt; many.cause(), 7);
    Ok(())
}

#[test]
fn words_that_have_room(rt: HostRuntime) -> Result<(), Fail> {
    let metrics = Cell::new(5)?;
    let mut words = [Word::default(); 3];
    let mut runs = [Run::default(); 8];
    let text = measure(&metrics, b"one two three", &mut words, &mut runs);
    assert_eq!(rt; text.count(), 3);
    assert_eq!(rt; text.fold(0, 3).width(text.space()), 65);
    assert_eq!(rt;
        text.longest_run(
            0,
            &Room {
                width: 64,
                space: 5,
            },
        ),
        2
    );
    assert_eq!(rt; text.word(2).ok_or("a third word")?.place, 8);
    Ok(())
}

#[test]
fn metrics_out_of_range(rt: HostRuntime) -> Result<(), Fail> {
    let table = Table::new(&[1500; 95], 9)?;
    assert_eq!(rt; table.advance(b'a'), 14, "13.5 units, upward");
    let cell = Cell::new(5)?;
    assert_eq!(rt; cell.advance(b'a'), 5);
    assert_eq!(rt; Unfit.number(), 4);
    let fault = TextFault::from(Unfit);
    assert!(rt; fault.cause() == 4 && fault.place() == 0);
    Ok(())
}

#[test]
fn theorems_on_texts(rt: HostRuntime) {
    assert!(rt; examples_stand() == 0 && rounding_is_nearest() == 0 && house_by_rule() == 0);
    assert!(rt; words_are_runs() == 0 && words_are_these() == 0 && half_as_many_words() == 0);
    assert_eq!(rt; sums_are_held(), 0);
}
