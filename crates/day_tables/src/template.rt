//! The parts of the bulletin, with their places (`page_text`). Every byte is ASCII; other characters are references.

/// The head of the daily bulletin.
pub(crate) const BULLETIN: &[u8] =
    b"<section id=\"bulletin\">\n<h2>Daily bulletin<small>17 CFR 37.901, 16.01</small></h2>\n<p class=\"lead\">Of what 17 CFR 16.01 (37.901) asks, the prices, volumes and numbers of trades: no open contracts, settlement prices or block trades. Of all dates in the trail; prices in the order of the trades; volumes are quantities.</p>\n<div class=\"wide\" tabindex=\"0\" role=\"region\" aria-label=\"Daily bulletin\"><table><caption class=\"q\">Daily bulletin</caption>\n<thead><tr class=\"g\"><td></td><th colspan=\"4\" scope=\"colgroup\">Price</th><th class=\"v\" colspan=\"3\" scope=\"colgroup\">Volume</th><th class=\"v\" colspan=\"3\" scope=\"colgroup\">Trades</th></tr>\n<tr><th scope=\"col\">Instrument</th><th scope=\"col\" class=\"n\">Open</th><th scope=\"col\" class=\"n\">High</th><th scope=\"col\" class=\"n\">Low</th><th scope=\"col\" class=\"n\">Last</th><th scope=\"col\" class=\"n v\">All</th><th scope=\"col\" class=\"n\">Book</th><th scope=\"col\" class=\"n\">Requests</th><th scope=\"col\" class=\"n v\">All</th><th scope=\"col\" class=\"n\">Book</th><th scope=\"col\" class=\"n\">Requests</th></tr></thead>\n<tbody>";

/// An instrument that traded.
pub(crate) const TRADED: &[u8] =
    b"<tr id=\"x$instrument;\"><th scope=\"row\">$symbol;</th><td class=\"n\">$open;</td><td class=\"n\">$high;</td><td class=\"n\">$low;</td><td class=\"n\">$last;</td><td class=\"n v\">$volume;</td><td class=\"n\">$book;</td><td class=\"n\">$requests;</td><td class=\"n v\">$trades;</td><td class=\"n\">$book;</td><td class=\"n\">$requests;</td></tr>";

/// The end of the bulletin.
pub(crate) const BULLETIN_END: &[u8] =
    b"</tbody></table></div>\n<p class=\"s none\">Instruments without a trade are left out.</p></section>\n";

/// The bulletin of a day without a trade.
pub(crate) const NO_BULLETIN: &[u8] =
    b"<section id=\"bulletin\">\n<h2>Daily bulletin<small>17 CFR 37.901, 16.01</small></h2>\n<p class=\"none s\">No instrument traded.</p></section>\n";
