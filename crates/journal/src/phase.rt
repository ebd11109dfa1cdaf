// Where a journal stands.

#[derive(Clone, Copy)]
pub enum Phase {
    // All that was written is synced.
    Synced,
    // Something was written behind the last sync, or it is not known.
    Written,
    // A write or a sync failed: it takes no more.
    Shut,
}
