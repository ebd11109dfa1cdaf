// The laws of journals: each stands on the contract of a function.
ghost use Rattle.journal.specs.Laws.{OpensWhole, OpensAfterCrash, OpensAfterStop, BytesTellHistory};

// Opening all bytes of a history gives that very history.
pub fn opens_whole()
    ensures { OpensWhole }
{}

// Opening what a crash left gives the history after some record at or after the last sync.
pub fn opens_after_crash()
    ensures { OpensAfterCrash }
{}

// Opening whatever is found after a stop gives such a history.
pub fn opens_after_stop()
    ensures { OpensAfterStop }
{}

// Different histories have different bytes.
pub fn bytes_tell_history()
    ensures { BytesTellHistory }
{}
