//! The cause for which a file is refused.

/// A part of a file: the value at this key, or the list there.
#[derive(Clone, Copy)]
pub enum Part {
    Venue,
    Participants,
    Related,
    Instruments,
}

/// A key of an entry.
#[derive(Clone, Copy)]
pub enum Key {
    Name,
    A,
    B,
    Symbol,
    Tick,
    Least,
    RequestLife,
    Delay,
}

/// The fault of a part, or of an entry of it. The number is that of the refusal.
#[derive(Clone, Copy)]
pub enum Wrong {
    /// 2: a part that is absent.
    Absent,
    /// 2: a list without an entry.
    NoEntry,
    /// 2: an entry without a key.
    Lacks(Key),
    /// 6: a part that is no list.
    NoList,
    /// 6: an entry that is no table.
    NoTable,
    /// 6: a venue without a name of the right form.
    NoVenue,
    /// 6: a name or a symbol of the wrong form.
    NoName(Key),
    /// 6: no number, or one out of its range.
    NoNumber(Key),
    /// 6: a pair of a participant with itself.
    Same,
    /// 5: a list of too many entries.
    TooMany,
    /// 3: a participant with the name of the venue.
    OfVenue,
    /// 3: a name, a symbol or a pair of an entry before.
    Twice,
    /// 4: a name of a pair that no participant has.
    Unknown(Key),
}

/// The part at fault, the number of its entry from 1 on, if it is one, and the fault.
#[derive(Clone, Copy)]
pub struct Cause {
    pub part: Part,
    pub entry: Option<usize>,
    pub wrong: Wrong,
}

/// One search through the entries of a list.
#[derive(Clone, Copy)]
pub enum Look {
    /// For a table without this key.
    Lack(Key),
    BadParticipant,
    BadPair,
    BadInstrument,
    /// For a participant with the name of the venue.
    VenueName,
    /// For a text at this key that an entry before has too.
    Repeat(Key),
    /// For a pair that stands before, in either order.
    RepeatedPair,
    UnknownName,
}
