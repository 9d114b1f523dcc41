//! The parts of the sections, with their places (`page_text`). Every byte is ASCII; other characters are references.

/// The day in six figures.
pub(crate) const FIGURES: &[u8] =
    b"<section id=\"figures\" style=\"padding-top:0\" aria-label=\"The day in six figures\">\n<dl class=\"six\"><div><dt>Application messages taken</dt><dd><a href=\"#rows\">$messages;</a></dd><p>participants: $participants;, rows: $rows;</p></div><div><dt>Orders</dt><dd>$orders;</dd><p>accepted (New reported)</p></div><div><dt>Trades</dt><dd><a href=\"#trades\">$trades;</a></dd><p>in the book: $book;, in requests: $requests;</p></div><div><dt>Quantity traded</dt><dd><a href=\"#bulletin\">$quantity;</a></dd><p>added over all instruments, whatever their units; in the book: $book;, in requests: $requests;</p></div><div><dt>Requests</dt><dd><a href=\"#requests\">$requests;</a></dd><p>quotes: $quotes;, hit: $hit;</p></div><div><dt>Refusals</dt><dd><a href=\"#refusals\">$refusals;</a></dd><p>a message or a held side each</p></div></dl></section>\n";

/// The head of the trades.
pub(crate) const TRADES: &[u8] =
    b"<section id=\"trades\">\n<h2>Trades<small>$count;</small></h2>\n";

/// The head of a table of trades.
pub(crate) const TABLE_OF_TRADES: &[u8] =
    b"<table class=\"cards trades\"><caption class=\"q\">Trades</caption>\n<thead><tr><th scope=\"col\">Trade</th><th scope=\"col\">Time</th><th scope=\"col\">Instrument</th><th scope=\"col\">Where</th><th scope=\"col\" class=\"n\">Quantity</th><th scope=\"col\" class=\"n\">Price</th><th scope=\"col\">Buyer</th><th scope=\"col\">Seller</th><th scope=\"col\" class=\"n\">Row</th></tr></thead>\n<tbody>";

/// The end of a table.
pub(crate) const LIST_END: &[u8] = b"</tbody></table>\n";

/// A fold of 200, up to its table.
pub(crate) const FOLD: &[u8] =
    b"<details class=\"fold\"><summary><b>$from; to $to;</b></summary>\n";

/// An hour with trades, up to their table.
pub(crate) const HOUR: &[u8] =
    b"<details class=\"fold\"><summary><b>$hour;:00</b> trades: $count;, T$first; to T$last;; quantity over all instruments: $quantity;</summary>\n";

/// The end of an hour that has more.
pub(crate) const HOUR_END_MORE: &[u8] =
    b"<p class=\"s none\">Of these the first $count; are here: <code>sef_replay --csv</code> has the others.</p></details>\n";

/// An hour none of whose trades is here.
pub(crate) const HOUR_LINE: &[u8] =
    b"<p class=\"fold\"><b>$hour;:00</b> trades: $count;, T$first; to T$last;; quantity over all instruments: $quantity;. <code>sef_replay --csv</code> has them.</p>\n";

/// The end of a fold.
pub(crate) const FOLD_END: &[u8] = b"</details>\n";

/// A trade, up to where it was made.
pub(crate) const TRADE: &[u8] =
    b"<tr id=\"T$trade;\"><th scope=\"row\"><b>T$trade;</b></th><td class=\"w\">$time;</td><td><a href=\"#x$instrument;\">$symbol;</a></td>";

/// In the book, up to its flag.
pub(crate) const IN_BOOK: &[u8] =
    b"<td class=\"w\"><svg class=\"i\" aria-hidden=\"true\"><use href=\"#b\" class=\"k\" x=\"5\" y=\"5\"/></svg>book";

/// In a room, up to its flag.
pub(crate) const IN_ROOM: &[u8] =
    b"<td class=\"w\"><svg class=\"i\" aria-hidden=\"true\"><use href=\"#r\" class=\"ka\" x=\"5\" y=\"5\"/></svg>request <a href=\"#R$room;\">R$room;</a>";

/// Orders that are not linked.
pub(crate) const UNLINKED: &[u8] = b"</td>";

/// Linked orders.
pub(crate) const LINKED_ORDERS: &[u8] =
    b", <small><a href=\"#L$trade;\">linked orders</a></small></td>";

/// Linked orders, the second of them the held side of a cross.
pub(crate) const HELD_SIDE: &[u8] =
    b", <small><a href=\"#L$trade;\">held side of a cross</a></small></td>";

/// Its quantity, price and parties.
pub(crate) const DEAL: &[u8] =
    b"<td class=\"n\">$quantity;</td><td class=\"n\">$price;</td><td data-l=\"buyer\">$buyer;</td><td data-l=\"seller\">$seller;</td><td class=\"n\" data-l=\"row\">";

/// A trade without a report, of which there is none.
pub(crate) const NO_ROW: &[u8] = b"";

/// A row that is on the page.
pub(crate) const ROW_LINK: &[u8] = b"<a href=\"#n$row;\">$row;</a> ";

/// A row that is not.
pub(crate) const ROW_ALONE: &[u8] = b"$row; ";

/// The end of a cell and of its row.
pub(crate) const CELL_END: &[u8] = b"</td></tr>";

/// The end of the trades.
pub(crate) const TRADES_END: &[u8] =
    b"<p class=\"s none\">A trade of linked orders, such as one of a participant with itself, leads to its line in <a href=\"#linked\">Trades of linked orders</a>.</p></section>\n";

/// A day without a trade.
pub(crate) const NO_TRADE: &[u8] =
    b"<section id=\"trades\">\n<h2>Trades</h2>\n<p class=\"none s\">No trade was made.</p></section>\n";

/// The end of a section with one table.
pub(crate) const TABLE_END: &[u8] = b"</tbody></table></section>\n";

/// The head of the refusals.
pub(crate) const REFUSALS: &[u8] =
    b"<section id=\"refusals\">\n<h2>Refusals by cause<small>causes: $count;</small></h2>\n<p class=\"lead\">Of messages that the venue took, and of held sides of crosses, in the order of their first rows. What a session rejected (35=3) or skipped as garbled is in no trail.</p>\n<table class=\"cards ref\"><caption class=\"q\">Refusals by cause</caption><thead><tr><th scope=\"col\">Cause, as it was answered</th><th scope=\"col\" class=\"n\">Rows</th><th scope=\"col\">Whose, and the row</th></tr></thead>\n<tbody>";

/// A cause, up to the rows.
pub(crate) const CAUSE: &[u8] =
    b"<tr><th scope=\"row\">$cause;</th><td class=\"n\" data-l=\"rows\">$count;</td><td>";

/// Whose message was refused.
pub(crate) const REFUSED: &[u8] = b"$name; ";

/// The end of a cause whose rows are all named.
pub(crate) const NO_MORE_ROWS: &[u8] = b"</td></tr>";

/// The end of one with more rows.
pub(crate) const MORE_ROWS: &[u8] = b"and more</td></tr>";

/// A day without a refusal.
pub(crate) const NO_REFUSAL: &[u8] =
    b"<section id=\"refusals\">\n<h2>Refusals by cause</h2>\n<p class=\"none s\">Nothing was refused.</p></section>\n";

/// The head of the participants.
pub(crate) const PEOPLE: &[u8] =
    b"<section id=\"participants\">\n<h2>Participants<small>$count;</small></h2>\n<p class=\"lead\">Cancelled are orders and held sides that their owner cancelled, not what is left of an immediate or cancel, or of a fill or kill, which the venue cancels as it enters. Percentages are of the orders entered that it cancelled, without held sides, and of the requests quoted in where it was hit; per trade are orders entered and replaced, by trades in the book. All are cut, not rounded. Made are requests that were accepted.</p>\n<div class=\"wide\" tabindex=\"0\" role=\"region\" aria-label=\"Participants\"><table><caption class=\"q\">Each participant&#39;s day</caption>\n<thead><tr class=\"g\"><td></td><th colspan=\"2\" scope=\"colgroup\">Messages</th><th class=\"v\" colspan=\"5\" scope=\"colgroup\">Orders</th><th class=\"v\" colspan=\"2\" scope=\"colgroup\">Trades</th><th class=\"v\" colspan=\"1\" scope=\"colgroup\">Requests</th><th class=\"v\" colspan=\"5\" scope=\"colgroup\">Requests answered</th></tr>\n<tr><th scope=\"col\">Participant</th><th scope=\"col\" class=\"n\">Sent</th><th scope=\"col\" class=\"n\">Refused</th><th scope=\"col\" class=\"n v\">Entered</th><th scope=\"col\" class=\"n\">Replaced</th><th scope=\"col\" class=\"n\">Cancelled</th><th scope=\"col\" class=\"n\">Cancelled, %</th><th scope=\"col\" class=\"n\">Per trade</th><th scope=\"col\" class=\"n v\">Bought</th><th scope=\"col\" class=\"n\">Sold</th><th scope=\"col\" class=\"n v\">Made</th><th scope=\"col\" class=\"n v\">Asked</th><th scope=\"col\" class=\"n\">Quoted in</th><th scope=\"col\" class=\"n\">Quotes</th><th scope=\"col\" class=\"n\">Hit</th><th scope=\"col\" class=\"n\">Hit, %</th></tr></thead>\n<tbody>";

/// A participant: its messages and orders.
pub(crate) const PERSON: &[u8] =
    b"<tr id=\"p$participant;\"><th scope=\"row\" class=\"w\">$name;</th><td class=\"n\">$sent;</td><td class=\"n\">$refused;</td><td class=\"n v\">$entered;</td><td class=\"n\">$replaced;</td><td class=\"n\">$cancelled;</td>";

/// Its ratios of orders, its trades, and the requests that it made.
pub(crate) const PERSON_TRADES: &[u8] =
    b"<td class=\"n\">$cancelled_percent;</td><td class=\"n\">$orders_per_trade;</td><td class=\"n v\">$bought;</td><td class=\"n\">$sold;</td><td class=\"n v\">$requests;</td>";

/// The requests that it answered.
pub(crate) const PERSON_QUOTES: &[u8] =
    b"<td class=\"n v\">$asked;</td><td class=\"n\">$rooms;</td><td class=\"n\">$quotes;</td><td class=\"n\">$hit;</td><td class=\"n\">$hit_percent;</td></tr>";

/// The end of the participants.
pub(crate) const PEOPLE_END: &[u8] = b"</tbody></table></div></section>\n";
