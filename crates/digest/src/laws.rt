// What the definition of SHA-256 comes to. Each function carries a theorem, and does nothing.
ghost use Rattle.digest.specs.Laws.{PaddingFits, ScheduleRecurs, Published, DigestLong};

// A padded message is whole blocks, with the fewest zeros that do.
pub fn padding_fits()
    ensures { PaddingFits }
{}

// Each word of a schedule is the block's, or follows from the words before it.
pub fn schedule_recurs()
    ensures { ScheduleRecurs }
{}

// The published examples have their digests.
pub fn examples_stand()
    ensures { Published }
{}

// A digest has DIGEST_BYTES bytes, of whatever message.
pub fn digest_long()
    ensures { DigestLong }
{}
