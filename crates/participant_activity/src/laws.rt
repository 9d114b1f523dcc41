//! What every day keeps, whatever its inputs are.

ghost use Rattle.participant_activity.specs.Laws.{ActivityHasNoPrices, ActivityIsItsOwn, EndsAreWhole, KeptIsOfTurns, TurnsAreOwed, TurnsAreSent};

/// Two days in which a participant sent the same at the same moments and was owed the same give the same text, whatever
/// others did; and no price and no other participant's name is in it.
pub fn activity_is_its_own()
    ensures own { ActivityIsItsOwn }
    ensures unpriced { ActivityHasNoPrices }
{}

/// The turns of a day have what a participant sent and what it is owed, each message once, in order; and what is kept
/// of the day row by row is what these turns say.
pub fn turns_are_whole()
    ensures sent { TurnsAreSent }
    ensures owed { TurnsAreOwed }
    ensures kept { KeptIsOfTurns }
{}

/// Each accepted quote is counted once among those that were hit, passed, withdrawn, replaced, that ran out or whose
/// request traded elsewhere by their own end (62), or that have no reported end.
pub fn ends_are_whole()
    ensures { EndsAreWhole }
{}
