//! The parts, with their places (`page_text`). Every byte is ASCII.

/// Whom a request asked, up to the names.
pub(crate) const ROOM_ASKED: &[u8] =
    b"</summary>\n<dl class=\"asked\" id=\"R$room;\"><dt>Asked together</dt><dd>";

/// A name in a list.
pub(crate) const NAME: &[u8] = b"<span class=\"lo\">$name;</span> ";

/// The row of a request, up to its number.
pub(crate) const ASKED_ROW: &[u8] = b"<small>row ";

/// Three who are unrelated, up to who are related.
pub(crate) const THREE: &[u8] =
    b"</small></dd><dt>Three unrelated</dt><dd><b class=\"lo\">$first;</b> <b class=\"lo\">$second;</b> <b class=\"lo\">$third;</b>: related neither to $requester; nor to each other. ";

/// That there are none.
pub(crate) const NO_THREE: &[u8] =
    b"</small></dd><dt>Three unrelated</dt><dd>none: no three of those asked are related neither to $requester; nor to each other. ";

/// That nobody is related.
pub(crate) const NONE_RELATED: &[u8] =
    b"Nobody who was asked is related to another or to the requester.";

/// Who are related, up to the first pair.
pub(crate) const RELATED: &[u8] = b"<span>Related are:</span> ";

/// Two who are related.
pub(crate) const RELATED_PAIR: &[u8] = b"<span class=\"lo\">$one; with $other;</span> ";

/// The rule.
pub(crate) const THREE_RULE: &[u8] =
    b" <small><span class=\"w\">17 CFR 37.9(a)(2), (a)(3)</span></small>";
