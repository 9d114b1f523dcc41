//! The parts of the section, with their places (`page_text`). Every byte is ASCII; other characters are references.

/// The head of the instruments.
pub(crate) const INSTRUMENTS: &[u8] =
    b"<section id=\"instruments\">\n<h2>Instruments<small>$count;</small></h2>\n<p class=\"lead\">Of these instruments each that has a trade or a best price: its trades from the first row to the last, the best bid (solid) and the best offer (dashed), the volume below, and the book after the last row. A dot is a trade in the book, a diamond one in a request; of trades at one place the last is seen. Of changes of a best price within a 2,000th of the time the last is drawn. The scale is that of the trades (without one, of the best prices), and of best prices no further from them than their range or eight ticks: one further off is not drawn, and a line that leaves the frame goes there. Of more than 400 trades the lowest to the highest price in 200 equal parts of the day, without best prices. The volume is that in 60 equal parts, of requests (red) on top of the book (gray); its greatest is written at the left. An axis without two round values has its ends: the lowest and the highest price, the first and the last moment. A midnight between two dates is the date that it begins.</p>\n";

/// The end of the instruments.
pub(crate) const INSTRUMENTS_END: &[u8] = b"</section>\n";

/// An instrument of a short file.
pub(crate) const OPEN: &[u8] =
    b"<details class=\"fold inst\" open><summary><b>$symbol;</b>, trades: $count;</summary>\n";

/// An instrument of a long file.
pub(crate) const FOLDED: &[u8] =
    b"<details class=\"fold inst\"><summary><b>$symbol;</b>, trades: $count;</summary>\n";

/// The frame of a chart; the labels of prices stand in the empty cell before it.
pub(crate) const CHART: &[u8] =
    b"<div class=\"plot\"><span></span><svg class=\"x\" height=\"280\" role=\"img\" aria-label=\"$symbol;: prices and volume over the day; trades: $count;\"><line class=\"ax\" x1=\"0\" x2=\"100%\" y1=\"258\" y2=\"258\"/>";

/// The best bid, up to its line.
pub(crate) const LINES: &[u8] =
    b"<svg width=\"100%\" height=\"204\" viewBox=\"0 0 10000 204\" preserveAspectRatio=\"none\"><path class=\"bid\" d=\"";

/// The best offer, up to its line.
pub(crate) const OFFERS: &[u8] = b"\"/><path class=\"off\" d=\"";

/// The end of the best prices.
pub(crate) const LINES_END: &[u8] = b"\"/></svg>";

/// The beginning of a line.
pub(crate) const MOVE: &[u8] = b"M$x; $y;";

/// A line that goes on, up to a change, and to another price.
pub(crate) const STEP: &[u8] = b"H$x;V$y;";

/// The end of a line.
pub(crate) const STOP: &[u8] = b"H$x;";

/// A trade that is on the page.
pub(crate) const GLYPH: &[u8] =
    b"<a href=\"#T$trade;\" tabindex=\"-1\"><use href=\"#$shape;\" class=\"$class;\" x=\"$x;.$x;$x;%\" y=\"$y;\"/><title>T$trade; $time; $quantity; @ $price;</title></a>";

/// A trade that is not.
pub(crate) const GLYPH_ALONE: &[u8] =
    b"<g id=\"m$trade;\"><use href=\"#$shape;\" class=\"$class;\" x=\"$x;.$x;$x;%\" y=\"$y;\"/><title>T$trade; $time; $quantity; @ $price;</title></g>";

/// The prices of many trades, up to their lines.
pub(crate) const RANGES: &[u8] =
    b"<svg width=\"100%\" height=\"204\" viewBox=\"0 0 10000 204\" preserveAspectRatio=\"none\"><path class=\"range\" d=\"";

/// The highest and the lowest price in a part of the day; two pixels more, so that one price alone is seen.
pub(crate) const RANGE: &[u8] = b"M$x; $high;V$low;v2";

/// The end of the prices of many trades.
pub(crate) const RANGES_END: &[u8] = b"\"/></svg>";

/// The volume: the greatest of a part of the day, and what begins the bars.
pub(crate) const VOLUME: &[u8] =
    b"<text x=\"-8\" y=\"229\" text-anchor=\"end\">$volume;</text><svg y=\"220\" width=\"100%\" height=\"38\" viewBox=\"0 0 10000 38\" preserveAspectRatio=\"none\">";

/// The volume in a part of the day, in the book or in requests.
pub(crate) const BAR: &[u8] =
    b"<rect class=\"$class;\" x=\"$x;\" y=\"$y;\" width=\"130\" height=\"$height;\"/>";

/// The end of the volume.
pub(crate) const VOLUME_END: &[u8] = b"</svg>";

/// The end of a chart.
pub(crate) const CHART_END: &[u8] = b"</svg></div>\n";

/// The head of a book.
pub(crate) const LADDER: &[u8] =
    b"<table class=\"lad\"><caption>The book after the last row: the eight best prices of each side, best first</caption><thead><tr><th scope=\"col\">Side</th><th scope=\"col\" class=\"n\">Price</th><th scope=\"col\" class=\"n\">Quantity</th><th scope=\"col\" class=\"n\">Orders</th><th scope=\"col\" class=\"n\">First order</th></tr></thead><tbody>";

/// A price of a side, what rests there in all, in how many orders, and the first of them.
pub(crate) const LEVEL: &[u8] =
    b"<tr><td>$side;</td><td class=\"n\">$price;</td><td class=\"n\">$quantity;</td><td class=\"n\">$orders;</td><td class=\"n\">O$order;</td></tr>";

/// The prices that are left out.
pub(crate) const MORE: &[u8] =
    b"<tr><td colspan=\"5\" class=\"s\">more prices of $side;: $count;</td></tr>";

/// A side without an order.
pub(crate) const NO_SIDE: &[u8] = b"<tr><td colspan=\"5\" class=\"s\">no $side;</td></tr>";

/// The end of a book.
pub(crate) const LADDER_END: &[u8] = b"</tbody></table>\n";

/// The end of an instrument.
pub(crate) const INSTRUMENT_END: &[u8] = b"</details>\n";
