//! Laws on command lines. Each function stands for the law that it ensures, and does nothing.

ghost use Rattle.asc_words.specs.Laws.{LinesAreWithin, TakenWordsHaveLines};

/// Words that clap takes for asc's command name `run`, and each of its arguments has its value, given or by default, a
/// number within its range. So words have no line exactly where clap refuses them, or where `--pc` is no address.
pub fn taken_words_have_lines()
    ensures { TakenWordsHaveLines }
{}

/// The numbers of a line are within their ranges.
pub fn lines_are_within()
    ensures { LinesAreWithin }
{}
