//! The labels of a chart, with their places (`page_text`). Every byte is ASCII.

/// A price, with a line at it.
pub(crate) const PRICE_TICK: &[u8] =
    b"<svg y=\"$y;\" overflow=\"visible\"><line class=\"gl\" x2=\"100%\"/><text x=\"-8\" y=\"4\" text-anchor=\"end\">$price;</text></svg>";

/// A time, with a stroke below the chart.
pub(crate) const TIME_TICK: &[u8] =
    b"<svg x=\"$x;.$x;$x;%\" y=\"258\" overflow=\"visible\"><line class=\"ax\" y2=\"5\"/><text y=\"18\" text-anchor=\"$anchor;\">$time;</text></svg>";
