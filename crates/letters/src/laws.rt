// The laws of the formats: each stands on the contract of a function.
ghost use Rattle.letters.specs.Counting.{CountsAddUp};
ghost use Rattle.letters.specs.Laws.{EntryRoundTrip, EntryPrefixFree, EntryCutShort, EntryOneForm, EntrySmall, LetterRoundTrip, LetterInjective, LetterOneForm, UnsignedDamaged, CutDamaged, LongerDamaged, EntryOutOfRange, CommittedCutDamaged, TentativeCutDamaged};

// Reading an entry that was written gives it back.
pub fn entry_round_trip()
    ensures { EntryRoundTrip }
{}

// No entry's bytes begin another's.
pub fn entry_prefix_free()
    ensures { EntryPrefixFree }
{}

// An entry that is cut short is found short.
pub fn entry_cut_short()
    ensures { EntryCutShort }
{}

// What is read as an entry is in range, and its bytes are the one form that it has.
pub fn entry_one_form()
    ensures { EntryOneForm }
{}

// An entry takes `ENTRY_ROOM` bytes at most.
pub fn entry_small()
    ensures { EntrySmall }
{}

// Reading a letter that was written gives it back, whole.
pub fn letter_round_trip()
    ensures { LetterRoundTrip }
{}

// Different letters have different bytes.
pub fn letter_injective()
    ensures { LetterInjective }
{}

// What is heard whole is a letter, and its bytes are the one form that it has.
pub fn letter_one_form()
    ensures { LetterOneForm }
{}

// Nothing is heard where the last bytes are not the digest of those before them.
pub fn unsigned_damaged()
    ensures { UnsignedDamaged }
{}

// A letter that was written and is cut short anywhere is damaged.
pub fn cut_damaged()
    ensures { CutDamaged }
{}

// A letter that was written is damaged with anything behind it.
pub fn longer_damaged()
    ensures { LongerDamaged }
{}

// What is heard and what is kept out are as many entries as the count fields say.
pub fn counts_add_up()
    ensures { CountsAddUp }
{}

// An entry that is out of range is found so where all its bytes are there.
pub fn entry_out_of_range()
    ensures { EntryOutOfRange }
{}

// A letter whose bytes end within a committed entry is damaged, whatever the numbers of that entry.
pub fn committed_cut_damaged()
    ensures { CommittedCutDamaged }
{}

// So is one whose bytes end within a tentative entry.
pub fn tentative_cut_damaged()
    ensures { TentativeCutDamaged }
{}
