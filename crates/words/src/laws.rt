// What holds of the words of every text. These calls do nothing: each bears a theorem in its contract.
ghost use Rattle.words.specs.Law.{WordsAreRuns, WordsAreThese, HalfAsManyWords};

// Words are longest runs of ink, in order and apart, and each byte of ink lies in just one of them.
pub fn words_are_runs() -> u8
    ensures { WordsAreRuns }
{
    0
}

// Whatever list of spans is so, it is the list of the words.
pub fn words_are_these() -> u8
    ensures { WordsAreThese }
{
    0
}

// Two words have a byte between them, so a text has at most half as many words as bytes, rounded up.
pub fn half_as_many_words() -> u8
    ensures { HalfAsManyWords }
{
    0
}
