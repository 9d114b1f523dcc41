//! What the section shows of a day.

ghost use Rattle.std.specs.Prelude.{◌≡◌};
ghost use Rattle.request_sections.specs.Requests.{form_of, traded_form};

use crate::filed::Bucket;
use day_events::{Event, ShownPrice};
use instruments::Instruments;
use sef_moment::Moment;

/// The events of a day, also filed by room and by quote, and the prices shown.
#[derive(Clone, Copy)]
pub struct Day<'a> {
    /// whether its rows are on the page
    pub linked: bool,
    /// whether times stand with their dates
    pub dated: bool,
    /// the moment of the last
    pub last: Option<Moment>,
    /// how many requests there are
    pub count: usize,
    pub events: &'a [Event],
    pub shown: &'a [ShownPrice],
    pub instruments: &'a Instruments,
    /// whether these come in the order of their rows
    pub ordered: bool,
    pub rooms: &'a [Bucket],
    pub ends: &'a [Bucket],
}

/// How much of a request is on the page.
#[derive(Clone, Copy)]
pub enum Form {
    Open,
    Folded,
    Line,
}

/// The most requests that stand open.
const MOST_OPEN: usize = 12;

/// The most requests that stand whole.
const MOST_WHOLE: usize = 300;

fn traded_form(traded: bool) -> Form
    ensures { result ≡ traded_form traded }
{
    if traded { Form::Folded } else { Form::Line }
}

/// How much of each of that many requests is on the page, by whether it traded.
pub(crate) fn form_of(count: usize, traded: bool) -> Form
    ensures { result ≡ form_of count traded }
{
    if count <= MOST_OPEN {
        Form::Open
    } else if count <= MOST_WHOLE {
        Form::Folded
    } else {
        traded_form(traded)
    }
}
