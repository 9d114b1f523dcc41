//! Two trails compared, with the answers of the rows that they share; and one trail under other rules, or
//! without a participant's rows.
#![tactic(auto)]

mod day;
mod fault;
mod laws;
mod left_out;
mod lines;
mod printing;
mod replaying;
mod rules;
mod sent;
mod trades;
mod under;

pub use day::Day;
pub use fault::ComparisonFault;
pub use laws::{a_silent_participant_changes_nothing, same_is_sent_alike};
pub use printing::print_comparison;
pub use rules::{BothRules, OtherRules, Parts, Rules, RulesFault, other_rules};
pub use under::{print_under, print_without};
