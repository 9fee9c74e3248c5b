//! A law on the table. The function stands for the law that it ensures, and does nothing.

ghost use Rattle.std.specs.Prelude.{ℕ};
ghost use Rattle.asc_make.specs.File.{code_address};
ghost use Rattle.asc_make.specs.Table.{StandFrom, table};

/// The words of each table stand where an image's code does, in the order in which the image has them.
pub fn words_stand_at_their_addresses()
    ensures { (n : ℕ) → StandFrom code_address (table n) }
{}
