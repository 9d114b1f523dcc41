//! The parts of the sections, with their places (`page_text`). Every byte is ASCII; other characters are references.

/// The end of a table.
pub(crate) const LIST_END: &[u8] = b"</tbody></table>\n";

/// No row.
pub(crate) const NO_ROW: &[u8] = b"";

/// The end of a cell and of its row.
pub(crate) const CELL_END: &[u8] = b"</td></tr>";

/// The end of a section.
pub(crate) const SECTION_END: &[u8] = b"</section>\n";

/// The head of the trades of linked orders.
pub(crate) const LINKED: &[u8] =
    b"<section id=\"linked\">\n<h2>Trades of linked orders<small>$count;</small></h2>\n<p class=\"lead\">Trades in the book of two orders of one participant, of related ones or with one link (583, which a replacement keeps), and of both sides of a cross: the second enters the delay after the first, or later (17 CFR 37.9(b)(1)). A cross whose held side met no linked order is among the <a href=\"#crosses\">crosses</a> alone.</p>\n";

/// The head of a table of these.
pub(crate) const TABLE_OF_LINKED: &[u8] =
    b"<table class=\"cards\"><caption class=\"q\">Trades of linked orders</caption>\n<thead><tr><th scope=\"col\">Trade</th><th scope=\"col\">Buyer</th><th scope=\"col\">Seller</th><th scope=\"col\">First order</th><th scope=\"col\">Second order</th><th scope=\"col\" class=\"n\">Between, ms</th><th scope=\"col\" class=\"n\">Delay, ms</th><th scope=\"col\" class=\"n\">Their rows</th></tr></thead>\n<tbody>";

/// A trade that is on the page.
pub(crate) const TRADE_LINK: &[u8] =
    b"<tr id=\"L$trade;\"><th scope=\"row\"><a href=\"#T$trade;\">T$trade;</a></th>";

/// A trade that is not.
pub(crate) const TRADE_ALONE: &[u8] = b"<tr id=\"L$trade;\"><th scope=\"row\">T$trade;</th>";

/// The parties of a trade of linked orders, and when these entered, up to how the second did.
pub(crate) const LINKED_TRADE: &[u8] =
    b"<td data-l=\"buyer\">$buyer;</td><td data-l=\"seller\">$seller;</td><td class=\"w\" data-l=\"first\">$first;</td><td class=\"w\" data-l=\"second\">$second;";

/// At a row of the clock.
pub(crate) const BY_CLOCK: &[u8] = b" <small>held side</small></td>";

/// With a message.
pub(crate) const BY_MESSAGE: &[u8] = b"</td>";

/// The time between them, and the delay.
pub(crate) const LINKED_TIMES: &[u8] =
    b"<td class=\"n\" data-l=\"between, ms\">$between;</td><td class=\"n\" data-l=\"delay, ms\">$delay;</td><td class=\"n\" data-l=\"rows\">";

/// The end of a section that has more.
pub(crate) const MORE_LINKED: &[u8] =
    b"<p class=\"s none\">More such trades, which are not here: $count;. <code>sef_replay --csv</code> has every trade of the day.</p></section>\n";

/// A day without such a trade.
pub(crate) const NO_LINKED: &[u8] =
    b"<section id=\"linked\">\n<h2>Trades of linked orders</h2>\n<p class=\"none s\">No two linked orders traded.</p></section>\n";

/// The head of the alarms.
pub(crate) const ALARMS: &[u8] =
    b"<section id=\"alarms\">\n<h2>Alarms<small>$count;</small></h2>\n<p class=\"lead\">What surveillance of the day raises (17 CFR 37.203(d), 37.401) by the default thresholds, 1,000 ms (a cancel after the entry, a linked order after its delay), 20 orders a trade, 90 percent cancelled or hit (of 10 or more orders, or requests quoted in), and 10 requests to the same three: each is something to look at, not a finding. First those of trades, then of cancels and hits, of orders after a refusal, of participants. <code>sef_replay --watch</code> prints them all, and with <code>--thresholds</code> those by other thresholds.</p>\n";

/// The head of a table of these.
pub(crate) const TABLE_OF_ALARMS: &[u8] =
    b"<table class=\"cards\"><caption class=\"q\">Alarms</caption>\n<thead><tr><th scope=\"col\">Alarm</th><th scope=\"col\" class=\"n\">Row</th></tr></thead>\n<tbody>";

/// An alarm, up to its row.
pub(crate) const ALARM: &[u8] = b"<tr><td>$alarm;</td><td class=\"n\" data-l=\"row\">";

/// The end of a section that has more.
pub(crate) const MORE_ALARMS: &[u8] =
    b"<p class=\"s none\">More alarms, which are not here: $count;.</p></section>\n";

/// A day without an alarm.
pub(crate) const NO_ALARM: &[u8] =
    b"<section id=\"alarms\">\n<h2>Alarms</h2>\n<p class=\"none s\">None is raised by the default thresholds, 1,000 ms (a cancel after the entry, a linked order after its delay), 20 orders a trade, 90 percent cancelled or hit (of 10 or more orders, or requests quoted in), and 10 requests to the same three: <code>sef_replay --watch --thresholds FILE</code> takes others.</p></section>\n";
