//! The laws of how many guesses are made, and of the workers' share of them. Each function stands for the law that it
//! ensures, and does nothing.

ghost use Rattle.asc_live.specs.Laws.{GuessesAreCounted, SharesRise};

/// A walk that visits a new helper makes of each kind of guess as many as its visits and the visits ahead are, less two,
/// from the second visit on; each of them is pushed, or finds no room or is not offered. Where memory is wanting nothing is
/// said.
pub fn guesses_are_counted()
    ensures { GuessesAreCounted }
{}

/// The workers' share of the visits is W of W + 1, where there are W workers: they are given the guesses of those visits at
/// which the whole part of that share rises.
pub fn shares_rise()
    ensures { SharesRise }
{}
