//! The parts of the section, with their places (`page_text`). Every byte is ASCII.

/// The head of the crosses.
pub(crate) const CROSSES: &[u8] =
    b"<section id=\"crosses\">\n<h2>Crosses<small>$count;</small></h2>\n<p class=\"lead\">Crosses that were accepted (35=s): the first side enters at once, the second is held for the delay of its instrument, so that others may meet the first (17 CFR 37.9(b)(1)). Of the second side: what became of it as it was due, or before. Other orders that it met may be of its own participant, also one that replaced the first side. Crosses refused are among the <a href=\"#refusals\">refusals</a>.</p>\n";

/// The head of a table of these.
pub(crate) const TABLE_OF_CROSSES: &[u8] =
    b"<table class=\"cards\"><caption class=\"q\">Crosses</caption>\n<thead><tr><th scope=\"col\">Cross</th><th scope=\"col\">Participant</th><th scope=\"col\">Instrument</th><th scope=\"col\" class=\"n\">Quantity</th><th scope=\"col\" class=\"n\">Price</th><th scope=\"col\">First side</th><th scope=\"col\">Second side, held</th><th scope=\"col\">What became of it</th><th scope=\"col\" class=\"n\">Rows</th></tr></thead>\n<tbody>";

/// The end of a table.
pub(crate) const LIST_END: &[u8] = b"</tbody></table>\n";

/// A cross, up to its sides.
pub(crate) const CROSS: &[u8] =
    b"<tr id=\"C$row;\"><th scope=\"row\"><bdi>$cross;</bdi></th><td>$who;</td><td>$symbol;</td><td class=\"n\" data-l=\"quantity\">$quantity;</td><td class=\"n\" data-l=\"price\">$price;</td>";

/// Its sides, of which the buy entered first, up to what became of the other.
pub(crate) const BUY_FIRST: &[u8] =
    b"<td data-l=\"first\">buy O$order; <bdi>$id;</bdi> <small>$time;</small></td><td data-l=\"held\">sell <bdi>$id;</bdi> <small>until $due;</small></td><td>";

/// Its sides, of which the sell entered first.
pub(crate) const SELL_FIRST: &[u8] =
    b"<td data-l=\"first\">sell O$order; <bdi>$id;</bdi> <small>$time;</small></td><td data-l=\"held\">buy <bdi>$id;</bdi> <small>until $due;</small></td><td>";

/// The held side is still held.
pub(crate) const HELD: &[u8] = b"held at the last row";

/// It was cancelled.
pub(crate) const CANCELLED: &[u8] = b"cancelled";

/// It was refused.
pub(crate) const REFUSED: &[u8] = b"refused: $cause;";

/// It entered.
pub(crate) const ENTERED: &[u8] = b"entered as O$order;";

/// Its trade with the first side, which is on the page.
pub(crate) const MET_LINK: &[u8] = b", met its first side: <a href=\"#T$trade;\">T$trade;</a>";

/// One that is not.
pub(crate) const MET_ALONE: &[u8] = b", met its first side: T$trade;";

/// It traded with others.
pub(crate) const MET_OTHERS: &[u8] = b", met other orders";

/// It did not trade as it entered.
pub(crate) const MET_NONE: &[u8] = b", no trade then";

/// Nothing more to say.
pub(crate) const NOTHING: &[u8] = b"";

/// From what became of it to the rows.
pub(crate) const ITS_ROWS: &[u8] = b"</td><td class=\"n\" data-l=\"rows\">";

/// The end of a cross.
pub(crate) const CELL_END: &[u8] = b"</td></tr>";

/// The end of the section.
pub(crate) const SECTION_END: &[u8] = b"</section>\n";

/// The end of a section that has more.
pub(crate) const MORE_CROSSES: &[u8] =
    b"<p class=\"s none\">More crosses, which are not here: $count;. <code>sef_replay --answers</code> has the answers to each.</p></section>\n";

/// A day without a cross.
pub(crate) const NO_CROSS: &[u8] =
    b"<section id=\"crosses\">\n<h2>Crosses</h2>\n<p class=\"none s\">No cross was accepted.</p></section>\n";
