use std::snapshot::Snapshot;

/// A list, by what was added last.
#[derive(Drop)]
pub(crate) enum Past<T> {
    Nothing,
    Then {
        last: Snapshot<T>,
        earlier: Snapshot<Past<T>>,
    },
    Joined {
        more: Snapshot<Vec<T>>,
        earlier: Snapshot<Past<T>>,
    },
}
