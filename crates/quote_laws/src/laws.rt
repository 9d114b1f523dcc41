//! What became of each quote, and the rules.

ghost use Rattle.quote_laws.specs.Lifetimes.{LivesAgree};
ghost use Rattle.quote_laws.specs.Outcomes.{OutcomesAgree, QuotesAreListed};

/// Of each quote of a day the page says that it was hit in a trade if that trade is of the quote, and only then. It
/// says that the quote is live at a moment, or that it was withdrawn or passed, if the rules say so, and only then.
pub fn quotes_end_by_the_rules()
    ensures { OutcomesAgree }
{}

/// Each quote that the venue recorded has its event, in its room.
pub fn every_quote_is_listed()
    ensures { QuotesAreListed }
{}

/// At each moment between two rows of a day, or at a row's own, each quote that is live by the rules is so on the page
/// until then or longer. Of each other one the page has the end then or before.
pub fn quotes_live_by_the_rules()
    ensures { LivesAgree }
{}
