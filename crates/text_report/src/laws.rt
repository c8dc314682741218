// What holds of every file. These calls do nothing: each bears a theorem in its contract.
ghost use Rattle.text_report.specs.Law.{ReportsStand, MemorySuffices};

// The report of a file tells of the first line that is refused, if there is any, and otherwise of every text; and nothing
// else is its report.
pub fn reports_stand() -> u8
    ensures { ReportsStand }
{
    0
}

// With 4,096 records and 8,192 cells, no text is refused for want of them.
pub fn memory_suffices() -> u8
    ensures { MemorySuffices }
{
    0
}
