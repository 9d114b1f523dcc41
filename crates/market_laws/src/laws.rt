//! Theorems over every list of inputs.

ghost use Rattle.std.specs.Prelude.{List};
ghost use Rattle.venue_rules.specs.Market.{Market};
ghost use Rattle.venue_rules.specs.Run.{Input};
ghost use Rattle.market_laws.specs.Access.{EverybodySeesTheBook};
ghost use Rattle.market_laws.specs.Asking.{OnlyRecipientsAreAsked, RequestsGoToThree};
ghost use Rattle.market_laws.specs.BookTrades.{BookTradesAreBetweenOwners};
ghost use Rattle.market_laws.specs.Duplicates.{CrossDuplicatesNameWhatRests, DuplicatesNameWhatRests};
ghost use Rattle.market_laws.specs.Hitting.{RestingOrdersTrade, ShownOrdersTrade};
ghost use Rattle.market_laws.specs.OneBook.{OneBookChanges};
ghost use Rattle.market_laws.specs.Renaming.{NobodyIsPreferred};
ghost use Rattle.market_laws.specs.TradeReports.{TradesAreReportedInPairs};
ghost use Rattle.market_laws.specs.Quoting.{QuotesAreSentOn, RecipientsAreEqual, ValidQuotesAreTaken};

/// Each request for quotes that the venue records, traded or not, went in one answer to each of its recipients and to
/// nobody else. They are participants, the requester is not among them, and three of them are unrelated to the
/// requester and to each other. Whoever is sent a request is a recipient of a recorded one (17 CFR 37.9(a)(3)).
pub fn every_request_goes_to_three()
    ensures to_three { (m : Market) (is : List Input) → RequestsGoToThree m is }
    ensures to_no_other { (m : Market) (is : List Input) → OnlyRecipientsAreAsked m is }
{}

/// Each trade in the book is between a bid and an offer that entered, whose owners are buyer and seller. Its price is
/// within both limits. Its quantity is above 0 and at most what either had left (17 CFR 37.3(a)(2), (a)(3)).
pub fn every_book_trade_is_between_its_owners()
    ensures { (m : Market) (is : List Input) → BookTradesAreBetweenOwners m is }
{}

/// After every list of inputs, a recipient's valid quote to an open request is taken as it was made, whoever of them
/// makes it. It is sent on to the requester in that answer. Of two recipients who send the same quote at the same
/// moment, under an identifier new to both, both are taken or neither is. Each recorded quote is one that a recipient
/// sent (17 CFR 37.9(a)(3)(iii)).
pub fn every_recipient_may_answer()
    ensures valid_ones_taken { (m : Market) (is : List Input) → ValidQuotesAreTaken m is }
    ensures equal { (m : Market) (is : List Input) → RecipientsAreEqual m is }
    ensures sent_on { (m : Market) (is : List Input) → QuotesAreSentOn m is }
{}

/// After every list of inputs, each listed instrument has one list of entries, one for each firm order, which is shown
/// to whoever asks for the book, and to a requester with its first quote (17 CFR 37.3(a)(2), (a)(3), 37.202(a)).
pub fn everybody_sees_the_book()
    ensures { (m : Market) (is : List Input) → EverybodySeesTheBook m is }
{}

/// After every list of inputs, whoever sends a valid order trades with each resting order that it reaches, the delay of
/// linked orders apart: at that order's price, which is the one that any snapshot showed while it rested (17 CFR
/// 37.3(a)(3), 37.9(a)(3)(ii)).
pub fn everybody_may_trade()
    ensures resting { (m : Market) (is : List Input) → RestingOrdersTrade m is }
    ensures shown { (m : Market) (is : List Input) → ShownOrdersTrade m is }
{}

/// Who a participant is, and how it is called, changes nothing. Let a second file have the participants of the first at
/// other places, under other names, with the same pairs related. Then the same inputs of the renamed participants have
/// the same answers, to the renamed ones (17 CFR 37.3(a)(3), 37.202(a)).
pub fn nobody_is_preferred()
    ensures { NobodyIsPreferred }
{}

/// An order under an identifier that its sender used is refused by one report, a cross under used ones by one for each
/// side. OrderID (37) of a report names the sender's order that rests under the report's identifier (11), by its
/// number, and none only where none rests: refused is the message, not that order.
pub fn every_duplicate_names_what_rests()
    ensures orders { (m : Market) (is : List Input) → DuplicatesNameWhatRests m is }
    ensures crosses { (m : Market) (is : List Input) → CrossDuplicatesNameWhatRests m is }
{}

/// An input changes the resting orders of one instrument alone: of the one that the order report has with which its
/// answer begins. An answer that begins with no such report changes none.
pub fn every_input_changes_one_book()
    ensures { (m : Market) (is : List Input) → OneBookChanges m is }
{}

/// Each trade is reported twice, once to each party. The two reports follow each other, and come in the order of the
/// trades, under their numbers: 1, 1, 2, 2 and so on (FIX 5.0 SP2, ExecutionReport).
pub fn every_trade_is_reported_twice()
    ensures { (m : Market) (is : List Input) → TradesAreReportedInPairs m is }
{}
