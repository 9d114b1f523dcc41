//! Theorems over every list of inputs.

ghost use Rattle.std.specs.Prelude.{◌≡◌, true, List};
ghost use Rattle.instruments.specs.Rows.{is_instrument_file};
ghost use Rattle.venue_rules.specs.Addressees.{AnswersGoToParticipants, RepliesGoToParticipants};
ghost use Rattle.venue_rules.specs.Amounts.{AmountsStayWithin, FillsAreWithin, PrintedNumbersAreIdentifiers};
ghost use Rattle.venue_rules.specs.Lawful.{BestOrderTrades, EveryRunIsLawful, LinkedOrdersWait, LinkedOrdersWaitASecond, NumbersArePlaces, OrdersTradeWithin, PricesComeWithFirstQuote, RecipientsAskedTogether, RequestsComeFirst};
ghost use Rattle.venue_rules.specs.Limits.{LiveQuotesAreFew, OpenRoomsAreFew, RepliesAreFew, RowsAreInOrder, SidesAreShort, WithdrawalsAreFew};
ghost use Rattle.venue_rules.specs.Market.{Market};
ghost use Rattle.venue_rules.specs.MoreInputs.{HistoriesJoin, HistoryGoesOn, OwedGoesOn, OwedJoins, RepliesGoOn, RepliesJoin, RowsGoOn, RowsJoin, TimelyGoesOn, TimelyJoins};
ghost use Rattle.venue_rules.specs.ReadBack.{RowsAreReadBack};
ghost use Rattle.venue_rules.specs.Reported.{ReportsAreNumbered, TradesAreReported};
ghost use Rattle.venue_rules.specs.RoomTrades.{RoomsTradeOnce, RoomTradesAreLawful};
ghost use Rattle.venue_rules.specs.Run.{Input, run};

/// The venue's laws hold over every list of inputs, for all participants and instruments. Each law below is one part.
pub fn every_run_is_lawful()
    ensures { EveryRunIsLawful }
{}

/// Each trade in a room followed a request to three participants unrelated to the requester and to each other, all
/// asked in one answer. It is with one of them, at its live quote. The requester was shown the resting firm prices
/// right before the room's first quote (17 CFR 37.9(a)(2), (a)(3)). No room trades twice.
pub fn every_room_trade_is_lawful()
    ensures joined { (m : Market) (is : List Input) → RoomTradesAreLawful m is }
    ensures followed_a_request { (m : Market) (is : List Input) → RequestsComeFirst m (run m is).history.facts }
    ensures prices_with_first_quote { (m : Market) (is : List Input) → PricesComeWithFirstQuote m (run m is) }
    ensures recipients_together { (m : Market) (is : List Input) → RecipientsAskedTogether m is }
    ensures once { (m : Market) (is : List Input) → RoomsTradeOnce (run m is).history.facts }
{}

/// Each trade in the book is with the first resting order of its side then, at that order's price and within the
/// entering order's (17 CFR 37.3(a)(3)). Linked orders that traded had entered at least the delay apart (17 CFR
/// 37.9(b)(1)): a second or more for the instruments of a file. No order trades more than its quantity.
pub fn every_book_trade_is_lawful()
    ensures best_order { (m : Market) (is : List Input) → BestOrderTrades (run m is).history.facts }
    ensures linked_orders_wait { (m : Market) (is : List Input) → LinkedOrdersWait m (run m is).history.facts }
    ensures a_second_apart { (m : Market) (is : List Input) → is_instrument_file m.instruments ≡ true → LinkedOrdersWaitASecond m (run m is).history.facts }
    ensures within_quantity { (m : Market) (is : List Input) → OrdersTradeWithin (run m is).history.facts }
{}

/// Execution reports, refusals included, are numbered 1, 2, 3 and so on in the order sent. Each trade is reported once
/// to its buyer and once to its seller, under numbers 1, 2, 3 and so on. Orders, rooms and quotes have their places as
/// numbers.
pub fn every_report_is_numbered()
    ensures reports { (m : Market) (is : List Input) → ReportsAreNumbered (run m is) }
    ensures trades { (m : Market) (is : List Input) → TradesAreReported m (run m is) }
    ensures places { (m : Market) (is : List Input) → NumbersArePlaces (run m is).history.facts }
{}

/// The filled quantity of an order under earlier numbers, plus its own quantity, stays an amount: at most 10^15.
pub fn amounts_stay_within()
    ensures { AmountsStayWithin }
{}

/// An order fills at most its quantity, and at most the leaves quantity of each resting order.
pub fn fills_are_within()
    ensures { FillsAreWithin }
{}

/// The venue's printed numbers have the form of an identifier.
pub fn printed_numbers_are_identifiers()
    ensures { PrintedNumbersAreIdentifiers }
{}

/// The rows of a list of inputs give the list back, for any reader that inverts the texts of its messages.
pub fn every_row_is_read_back()
    ensures { RowsAreReadBack }
{}

/// Rows of inputs whose moments do not fall are numbered 1, 2, 3 and so on, and their moments do not fall.
pub fn rows_are_in_order()
    ensures { RowsAreInOrder }
{}

/// Over inputs whose moments do not fall: at a moment no earlier than the last, at most 1,000 rooms are open and at
/// most 1,000 quotes of one participant are live. A withdrawal sends each participant at most 1,000 replies.
pub fn open_rooms_are_few()
    ensures rooms { (m : Market) (is : List Input) → OpenRoomsAreFew m is }
    ensures quotes { (m : Market) (is : List Input) → LiveQuotesAreFew m is }
    ensures withdrawals { (m : Market) (is : List Input) → WithdrawalsAreFew m is }
{}

/// Effect of a further input: the history is that after its answer; the answer's replies, their messages and the
/// input's row are appended; and the list stays timely where it was and the input is.
pub fn run_goes_on()
    ensures history { HistoryGoesOn }
    ensures replies { RepliesGoOn }
    ensures owed { OwedGoesOn }
    ensures timely { TimelyGoesOn }
    ensures rows { RowsGoOn }
{}

/// Effect of any further inputs: the venue goes on from the history so far.
pub fn runs_join()
    ensures history { HistoriesJoin }
    ensures replies { RepliesJoin }
    ensures owed { OwedJoins }
    ensures timely { TimelyJoins }
    ensures rows { RowsJoin }
{}

/// Where each message comes from a participant, every reply goes to one: over a whole list of inputs, and in the answer
/// to a further input.
pub fn replies_go_to_participants()
    ensures all { RepliesGoToParticipants }
    ensures answer { AnswersGoToParticipants }
{}

/// At most 200 orders rest on a side of an instrument. One input adds at most 1,536 replies for one participant: 402
/// for an order, 12 for a request, 1,000 for a withdrawal. The last bound is over inputs whose moments do not fall.
pub fn replies_are_few()
    ensures orders { (m : Market) (is : List Input) → SidesAreShort m is }
    ensures replies { (m : Market) → RepliesAreFew m }
{}
