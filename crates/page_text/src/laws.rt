//! Laws of every page.
ghost use Rattle.std.specs.Prelude.{◌≡◌, codes};
ghost use Rattle.page_text.specs.Laws.{worked_parts, PartsFollowParts, ValuesAreReadBack, ValuesLeaveTagsAlone};
ghost use Rattle.page_text.specs.Parts.{page_of};

/// The tags of a page are those of its template, whatever its values are.
pub fn values_leave_tags_alone()
    ensures { ValuesLeaveTagsAlone }
{}

/// A reader of HTML sees each value as it is, whatever its bytes are.
pub fn values_are_read_back()
    ensures { ValuesAreReadBack }
{}

/// Parts that are added behind others are added to the page of these.
pub fn parts_follow_parts()
    ensures { PartsFollowParts }
{}

/// The page of small parts, as written by hand: values in the text, in quotes and in a tag; a place without a value; a
/// part that begins in a tag.
pub fn worked_page()
    ensures { page_of worked_parts ≡ codes "<p title=\"&lt;b&gt;&quot;\">&lt;script&gt;&amp;&#39;&#x01;&#xff;~</p><p class=\"\"></p><i>last</i>" }
{}
