// Advances worked by hand, proved of the definitions that the contracts cite.
ghost use Rattle.metrics.specs.Examples.{ExamplesStand};

// The house table at sizes 1, 9 and 10: halves, a 0, and bytes that aren't printable.
pub fn examples_stand() -> u8
    ensures { ExamplesStand }
{
    0
}

#[cfg(test)]
mod tests {
    use crate::advances::Metrics;
    use crate::tables::Table;
    use std::test::Fail;

    #[test]
    fn the_house_table_at_ten(rt: HostRuntime) -> Result<(), Fail> {
        let house = Table::house(10)?;
        assert_eq!(rt; house.advance(b'i'), 3, "2.5 units, upward");
        assert_eq!(rt; house.advance(b'n'), 5);
        assert_eq!(rt; house.advance(b'm'), 8, "7.5 units, upward");
        Ok(())
    }
}
