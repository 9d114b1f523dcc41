//! The parts of the section, with their places (`page_text`). Every byte is ASCII; other characters are references.

/// The end of a cell and of its row.
pub(crate) const CELL_END: &[u8] = b"</td></tr>";

/// The head of the requests for quotes.
pub(crate) const REQUESTS: &[u8] =
    b"<section id=\"requests\">\n<h2>Requests for quotes<small>$count;</small></h2>\n<p class=\"lead\">To whom each request went, three of them who are unrelated, what was shown with its first quote, what was refused, each quote and what became of it, and the trade (17 CFR 37.9(a)(2), (a)(3)). Of more than 300 requests those without a trade have their line alone: <code>sef_replay --answers --room</code> prints what was said of them. Refused here are first messages that name the request, then those that name a quote of it. The bar is how long a quote was live, the thin line goes on to its stated end, dashes are the hit; each request has its own scale.</p>\n";

/// An hour with requests, up to these.
pub(crate) const HOUR_OF_REQUESTS: &[u8] =
    b"<details class=\"fold\"><summary><b>$hour;:00</b> requests: $count;, traded: $traded;, R$first; to R$last;</summary>\n";

/// The end of an hour.
pub(crate) const HOUR_OF_REQUESTS_END: &[u8] = b"</details>\n";

/// A request that stands open.
pub(crate) const ROOM_OPEN: &[u8] = b"<details class=\"rfq\" open><summary>";

/// One that is closed.
pub(crate) const ROOM_FOLDED: &[u8] = b"<details class=\"rfq\"><summary>";

/// One whose line stands alone.
pub(crate) const ROOM_LINE: &[u8] = b"<div class=\"rfq short\" id=\"R$room;\">";

/// Its end.
pub(crate) const ROOM_LINE_END: &[u8] = b"</div>\n";

/// A request: its head, whose end says what came of it.
pub(crate) const ROOM: &[u8] =
    b"<b>R$room;</b><span>$time;</span><span>$requester; asks $asked; participants for quotes, $side; $quantity; <b>$symbol;</b> <small><bdi>$id;</bdi></small></span>";

/// A request that traded.
pub(crate) const ROOM_TRADED: &[u8] =
    b"<span class=\"out\"><a href=\"#T$trade;\">T$trade;</a> at <b class=\"a\">$price;</b></span>";

/// A request whose trade is not on the page.
pub(crate) const ROOM_TRADED_ALONE: &[u8] =
    b"<span class=\"out\">T$trade; at <b class=\"a\">$price;</b></span>";

/// A request that did not.
pub(crate) const ROOM_IDLE: &[u8] =
    b"<span class=\"out\">no trade <small>quotes: $quotes;</small></span>";

/// What was shown with the first quote, up to the orders.
pub(crate) const ROOM_SHOWN: &[u8] = b"</dd><dt>Shown with the first quote</dt><dd>";

/// A resting order that was shown.
pub(crate) const SHOWN: &[u8] =
    b"<span class=\"w\">$quantity; @ $price; <small>O$order;</small></span> ";

/// How many more of a side were shown, and the quantity of all.
pub(crate) const MORE_SHOWN: &[u8] = b"more orders: $count;, quantity of that side: $quantity;";

/// The bids, up to the first.
pub(crate) const BIDS: &[u8] = b"bids ";

/// The offers, up to the first.
pub(crate) const OFFERS: &[u8] = b"; offers ";

/// No bid.
pub(crate) const NO_BID: &[u8] = b"no bid";

/// No offer.
pub(crate) const NO_OFFER: &[u8] = b"; no offer";

/// With which quote they were shown.
pub(crate) const SHOWN_WITH: &[u8] =
    b" <small>with Q$quote;, <span class=\"w\">17 CFR 37.9(a)(3)(i)</span></small>";

/// No accepted quote, with which anything would have been shown.
pub(crate) const NOBODY_QUOTED: &[u8] = b"nothing was shown, since no quote was accepted";

/// An empty book.
pub(crate) const NOTHING_RESTED: &[u8] = b"nothing rested in the book";

/// What was refused in a request, up to the first.
pub(crate) const REFUSED_HERE: &[u8] = b"</dd><dt>Refused here</dt><dd>";

/// A message that was refused, up to its row.
pub(crate) const REFUSED: &[u8] = b"<div>$sender; on $named; at $time;: $cause; <small>row ";

/// The end of that.
pub(crate) const REFUSED_END: &[u8] = b"</small></div>";

/// The end of what stands before the quotes.
pub(crate) const ASKED_END: &[u8] = b"</dd></dl>\n";

/// The head of the quotes.
pub(crate) const QUOTES: &[u8] =
    b"<table class=\"cards quotes lines\"><caption class=\"q\">Quotes in R$room;</caption><thead><tr><th scope=\"col\">Quote</th><th scope=\"col\">Maker</th><th scope=\"col\" class=\"n\">Bid</th><th scope=\"col\" class=\"n\">Offer</th><th scope=\"col\">From</th><th scope=\"col\">Stands until</th><th scope=\"col\" class=\"life\">Time, from the request on</th><th scope=\"col\">What became of it</th><th scope=\"col\" class=\"n\">Row</th></tr></thead>\n<tbody>";

/// A quote, up to what became of it.
pub(crate) const QUOTE: &[u8] =
    b"<tr id=\"Q$quote;\"><th scope=\"row\"><b>Q$quote;</b></th><td>$maker; <small><bdi>$id;</bdi></small></td><td class=\"n\" data-l=\"bid\">$bid;</td><td class=\"n\" data-l=\"offer\">$offer;</td><td class=\"w\">$time;</td><td class=\"w\" data-l=\"until\">$end;</td><td class=\"life\"><svg viewBox=\"0 0 10000 16\" preserveAspectRatio=\"none\" aria-hidden=\"true\">";

/// How long a quote was live, and the line on to its stated end.
pub(crate) const LIFE: &[u8] =
    b"<line class=\"wh\" x1=\"$from;\" x2=\"$to;\" y1=\"8\" y2=\"8\"/><rect class=\"bl\" x=\"$start;\" y=\"4\" width=\"$width;\" height=\"8\"/>";

/// The hit, and the end of the timeline.
pub(crate) const HIT_AT: &[u8] =
    b"<line class=\"hit\" x1=\"9000\" x2=\"9000\" y1=\"0\" y2=\"16\"/></svg></td><td>";

/// The end of a timeline without a hit.
pub(crate) const LIFE_END: &[u8] = b"</svg></td><td>";

/// A quote that was hit.
pub(crate) const HIT: &[u8] =
    b"<b class=\"a\">hit</b>, <a href=\"#T$trade;\">T$trade;</a></td><td class=\"n\" data-l=\"row\">";

/// A quote that was hit by a trade that is not on the page.
pub(crate) const HIT_ALONE: &[u8] =
    b"<b class=\"a\">hit</b>, T$trade;</td><td class=\"n\" data-l=\"row\">";

/// A quote that was replaced.
pub(crate) const REPLACED: &[u8] =
    b"replaced by <a href=\"#Q$quote;\">Q$quote;</a></td><td class=\"n\" data-l=\"row\">";

/// A quote that its maker withdrew.
pub(crate) const WITHDRAWN: &[u8] = b"withdrawn at row $row;</td><td class=\"n\" data-l=\"row\">";

/// A quote that the requester passed.
pub(crate) const PASSED: &[u8] = b"passed at row $row;</td><td class=\"n\" data-l=\"row\">";

/// A quote of a request that another one ended.
pub(crate) const NOT_TAKEN: &[u8] = b"not taken</td><td class=\"n\" data-l=\"row\">";

/// A quote that ran out.
pub(crate) const RAN_OUT: &[u8] = b"ran out</td><td class=\"n\" data-l=\"row\">";

/// A quote that is live at the last row.
pub(crate) const LIVE: &[u8] = b"live at the last row</td><td class=\"n\" data-l=\"row\">";

/// Those who were asked and had no quote accepted, up to their names.
pub(crate) const NO_QUOTE: &[u8] =
    b"<tr class=\"dim\"><td></td><td colspan=\"8\">no accepted quote from ";

/// The end of a request.
pub(crate) const ROOM_END: &[u8] = b"</tbody></table></details>\n";

/// The end of a section.
pub(crate) const SECTION_END: &[u8] = b"</section>\n";

/// A day without a request.
pub(crate) const NO_REQUEST: &[u8] =
    b"<section id=\"requests\">\n<h2>Requests for quotes</h2>\n<p class=\"none s\">No request for quotes was accepted.</p></section>\n";
