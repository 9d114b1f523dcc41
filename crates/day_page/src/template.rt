//! The parts of the page, with their places (`page_text`). Every byte is ASCII; other characters are references.

/// From the beginning to the style.
pub(crate) const TOP: &[u8] =
    b"<!DOCTYPE html>\n<html lang=\"en\">\n<head>\n<meta charset=\"utf-8\">\n<meta http-equiv=\"Content-Security-Policy\" content=\"default-src 'none'; style-src 'unsafe-inline'; base-uri 'none'; form-action 'none'\">\n<meta name=\"viewport\" content=\"width=device-width, initial-scale=1\">\n<meta name=\"color-scheme\" content=\"light dark\">\n<title>$venue;, $day;: the day as one page</title>\n<style>\n";

/// From the style to the first section.
pub(crate) const HEAD: &[u8] =
    b"\n</style>\n</head>\n<body>\n<svg width=\"0\" height=\"0\" style=\"position:absolute\" aria-hidden=\"true\"><defs><circle id=\"b\" r=\"3.6\"/><path id=\"r\" d=\"M0-5.2 5.2 0 0 5.2-5.2 0z\"/><path id=\"e\" d=\"M1-4 9 0 1 4z\"/></defs></svg>\n<header>\n<div class=\"mast\"><div><h1>$venue; <span>$day;</span></h1><p>The record of the day, replayed from its trail</p></div></div>\n<dl class=\"facts\">\n<div><dt>Rows</dt><dd>$rows;</dd></div>\n<div><dt>First row (UTC)</dt><dd>$first;</dd></div>\n<div><dt>Last row (UTC)</dt><dd>$last;</dd></div>\n<div><dt>Participants, instruments</dt><dd>$participants;, $instruments;</dd></div>\n<div class=\"l\"><dt>Digest of the trail</dt><dd><code class=\"dig\">$digest;</code></dd></div>\n<div class=\"l\"><dt>Participant file (SHA-256)</dt><dd><code class=\"dig\">$participants;</code> <small>$length; bytes</small></dd></div>\n<div class=\"l\"><dt>Instrument file (SHA-256)</dt><dd><code class=\"dig\">$instruments;</code> <small>$length; bytes</small></dd></div>\n</dl>\n</header>\n<nav aria-label=\"Sections\"><ol><li><a href=\"#rules\">Part 37</a></li><li><a href=\"#bulletin\">Daily bulletin</a></li><li><a href=\"#instruments\">Instruments</a></li><li><a href=\"#trades\">Trades</a></li><li><a href=\"#requests\">Requests for quotes</a></li><li><a href=\"#refusals\">Refusals</a></li><li><a href=\"#participants\">Participants</a></li><li><a href=\"#linked\">Linked orders</a></li><li><a href=\"#crosses\">Crosses</a></li><li><a href=\"#alarms\">Alarms</a></li><li><a href=\"#rows\">Rows</a></li></ol></nav>\n<main>";

/// The head of the rows.
pub(crate) const ROWS: &[u8] =
    b"<section id=\"rows\">\n<h2>Rows<small>$count;</small></h2>\n<p class=\"lead\">What the venue took, in its order: each message in words, and as FIX text, with | for the byte 1; an identifier may hold a | too: the words say what was taken. Behind each name are the session&#39;s sequence number and its era: an era is a series of sequence numbers, from one reset (141=Y) to the next.</p>\n";

/// The table of the rows of a short day.
pub(crate) const ROWS_OPEN: &[u8] =
    b"<details class=\"fold\" open><summary>The rows</summary><table class=\"cards rows lines\"><caption class=\"q\">Rows of the trail</caption><thead><tr><th scope=\"col\">Row</th><th scope=\"col\">Time</th><th scope=\"col\">From</th><th scope=\"col\" class=\"say\">Message</th></tr></thead>\n<tbody>";

/// The first fold of the rows of a longer day.
pub(crate) const FOLD: &[u8] =
    b"<details class=\"fold\"><summary><b>Rows $first; to $last;</b>, $begin; to $end;</summary><table class=\"cards rows lines\"><caption class=\"q\">Rows $first; to $last;</caption><thead><tr><th scope=\"col\">Row</th><th scope=\"col\">Time</th><th scope=\"col\">From</th><th scope=\"col\" class=\"say\">Message</th></tr></thead>\n<tbody>";

/// The end of a fold, and the next.
pub(crate) const NEXT_FOLD: &[u8] =
    b"</tbody></table></details>\n<details class=\"fold\"><summary><b>Rows $first; to $last;</b>, $begin; to $end;</summary><table class=\"cards rows lines\"><caption class=\"q\">Rows $first; to $last;</caption><thead><tr><th scope=\"col\">Row</th><th scope=\"col\">Time</th><th scope=\"col\">From</th><th scope=\"col\" class=\"say\">Message</th></tr></thead>\n<tbody>";

/// A row of a message.
pub(crate) const MESSAGE: &[u8] =
    b"<tr id=\"n$row;\"><th scope=\"row\"><b>$row;</b></th><td class=\"w\">$time;</td><td>$participant; <small class=\"w\">$number; in era $era;</small></td><td class=\"say\"><bdi>$words;</bdi><code>$text;</code></td></tr>";

/// A row of the clock.
pub(crate) const TICK: &[u8] =
    b"<tr id=\"n$row;\"><th scope=\"row\"><b>$row;</b></th><td class=\"w\">$time;</td><td>the clock</td><td class=\"say\">the first held side that is due enters, or is refused: <code class=\"w\">sef_replay --answers --row N</code> says which</td></tr>";

/// The end of the rows.
pub(crate) const ROWS_END: &[u8] = b"</tbody></table></details></section>\n";

/// The section of a trail without rows.
pub(crate) const NO_ROWS: &[u8] = b"<p class=\"none s\">The trail has no rows.</p></section>\n";

/// The section of a day whose rows are left out.
pub(crate) const ROWS_LEFT: &[u8] =
    b"<p class=\"none s\">A day of more than 5,000 rows has none of them here: <code>sef_replay --answers</code> prints them.</p></section>\n";

/// The end of the page.
pub(crate) const END: &[u8] =
    b"</main>\n<footer><p>This page was made by a replay of the trail. A trail is no seal: compare its digest with one that was signed. Times are UTC, by the venue&#39;s clock. A time without a date is of the date at the head; on the axis of a longer trail each midnight has its date. Who is related to whom is as the participant file says.</p></footer>\n</body>\n</html>\n";
