// The laws of the network: each function's contract is a law.
ghost use Rattle.network.specs.AbstractLaws.{AbstractCausal, AbstractFinal, AbstractGaps, AbstractPrefix, AbstractSame, AbstractSound};
ghost use Rattle.network.specs.Cases.{SixCases, SixCasesPlayed};
ghost use Rattle.network.specs.Days.{DayOf, Happens, DaysStay, TimedAgree, TimedIsRun};
ghost use Rattle.network.specs.Fairness.{FairRunSettles};
ghost use Rattle.network.specs.Harm.{NoLetterHarms};
ghost use Rattle.network.specs.KeptOut.{KeptOutChangesNothing, OutcomesAddUp, SkippedChangesNothing};
ghost use Rattle.network.specs.Lasting.{LastingKnown};
ghost use Rattle.network.specs.Late.{LateLetterBrings};
ghost use Rattle.network.specs.Mail.{Mailed, AllStand, HandsOnLetters, ServedAgain};
ghost use Rattle.network.specs.Offering.{OffersWhatLacks};
ghost use Rattle.network.specs.Promise.{Always, OneOrder, OnePrimary, PrimaryLeads, Final, HandedOnStays, SameLog, OnceEach, BehindKnown, NamedBefore, CancelledHoldsNothing, NoGaps, VectorsSay, KnownStays, KnownWhenWritten, StoodSays, GuestsKeep, SlipsSay, LettersBring, TakenWhole, LettersNeeded, CanAgree};
ghost use Rattle.network.specs.Promised.{Promised};
ghost use Rattle.network.specs.Refinement.{PageGives, PageKeeps, Refines, RunsAreSteps};
ghost use Rattle.network.specs.Refusing.{LowestRefusal};
ghost use Rattle.network.specs.Rounds.{RoundsBring, SyncedSettles};
ghost use Rattle.network.specs.Sessions.{MonotonicReads, MonotonicWrites, ReadYourWrites, WritesFollowReads};
ghost use Rattle.network.specs.Shown.{CommittedOutcome, FoundStays, OutcomeStays, ShownStays, ToldMayChange};
ghost use Rattle.network.specs.Slips.{CoveredStays, ServedStays, BehindCovered, ServesAgain};
ghost use Rattle.network.specs.Walks.{AnyWalksAgree, FairAgree, WalksBring, ZeroKeepsLead};
ghost use Rattle.std.specs.Prelude.{List};

// Of what two replicas have as committed, one is the beginning of the other.
pub fn one_order()
    ensures { Always OneOrder }
{}

// No two replicas may commit.
pub fn one_primary()
    ensures { Always OnePrimary }
{}

// The one that may has committed all that any replica has as committed, in the same order.
pub fn primary_leads()
    ensures { Always PrimaryLeads }
{}

// What is committed and durable never changes but at its end.
pub fn final_stays()
    ensures { Always Final }
{}

// What was handed on or shown as committed at a place stays there.
pub fn handed_on_stays()
    ensures { Always HandedOnStays }
{}

// Replicas that know the same marks, with as many committed, have the same log and the same book.
pub fn same_log()
    ensures { Always SameLog }
{}

// Each mark stands in a log once, and only what was made stands in one.
pub fn once_each()
    ensures { Always OnceEach }
{}

// An entry stands behind all that its maker knew when making it.
pub fn behind_known()
    ensures { Always BehindKnown }
{}

// A cancellation or a change stands behind the entry that it names.
pub fn named_before()
    ensures { Always NamedBefore }
{}

// In every log that has a cancellation, the booking that it names holds nothing.
pub fn cancelled_holds_nothing()
    ensures { Always CancelledHoldsNothing }
{}

// Who knows an entry knows all that its hut made before it.
pub fn no_gaps()
    ensures { Always NoGaps }
{}

// The vector of what stands first in a log says the same as the entries themselves.
pub fn vectors_say()
    ensures { Always VectorsSay }
{}

// What was synced is known from then on.
pub fn known_stays()
    ensures { Always KnownStays }
{}

// What was known when a letter was written is known from then on.
pub fn known_when_written()
    ensures { Always KnownWhenWritten }
{}

// The vector of what stood before says the same as the entries themselves, however late.
pub fn stood_says()
    ensures { Always StoodSays }
{}

// A guest that is served finds all that it was shown or had made before.
pub fn guests_keep()
    ensures { Always GuestsKeep }
{}

// A guest is served wherever all is known that it was shown or had made.
pub fn slips_say()
    ensures { Always SlipsSay }
{}

// A replica that serves with a slip has all that the slip covers, then and ever after.
pub fn covered_stays()
    ensures { Always CoveredStays }
{}

// It serves with that slip ever after.
pub fn served_stays()
    ensures { Always ServedStays }
{}

// What is made where a slip is served stands behind all that the slip covers.
pub fn behind_covered()
    ensures { Always BehindCovered }
{}

// A letter for what a replica has is empty only where there is nothing to bring; else its first item is taken.
pub fn letters_bring()
    ensures { Always LettersBring }
{}

// A letter for what a replica has is taken whole.
pub fn taken_whole()
    ensures { Always TakenWhole }
{}

// Each letter brings the next items of all that is lacking, as many as a letter can have.
pub fn letters_needed()
    ensures { Always LettersNeeded }
{}

// From every state handing on and committing alone can bring all replicas to one log, all of it committed.
pub fn can_agree()
    ensures { Always CanAgree }
{}

// All laws at once, of the network after any list of events.
pub fn promised()
    ensures { Always Promised }
{}

// Six cases that wardens ask about: in each a hut answers as the table says, and so does its replica in a rehearsal.
pub fn six_cases()
    ensures model { SixCases }
    ensures played { SixCasesPlayed }
{}

// Whatever the programs of all huts do, each over its own journal, is a run of the network.
pub fn mailed()
    ensures { Mailed }
{}

// Whatever bytes come, nothing that is committed or known is lost.
pub fn no_letter_harms()
    ensures { NoLetterHarms }
{}

// A run with days is a run of the network in which huts leave some of what letters bring.
pub fn timed_is_run()
    ensures { (day_of : DayOf) (es : List Happens) → TimedIsRun day_of es }
{}

// Taking an entry changes no hut's day.
pub fn days_stay()
    ensures { (day_of : DayOf) (es : List Happens) → DaysStay day_of es }
{}

// Handing on, committing and days that go on can alone bring all replicas to one log.
pub fn timed_agree()
    ensures { (day_of : DayOf) (es : List Happens) → TimedAgree day_of es }
{}

// Of every page that steps lead to: each set is closed, and an entry of the list stands behind all that its maker knew.
pub fn abstract_sound()
    ensures { AbstractSound }
{}

// Of a page: of what two replicas have as committed one is the beginning of the other. It gives `one_order`.
pub fn abstract_prefix()
    ensures { AbstractPrefix }
{}

// Of a page: an entry stands behind all that its maker knew. It gives `behind_known`.
pub fn abstract_causal()
    ensures { AbstractCausal }
{}

// Of a page: replicas with one set and as many committed have one log. It gives `same_log`.
pub fn abstract_same()
    ensures { AbstractSame }
{}

// Of a page: who knows an entry knows all that its hut made before it. It gives `no_gaps`.
pub fn abstract_gaps()
    ensures { AbstractGaps }
{}

// Of a page: nothing that is for good is lost, and what is committed changes at its end alone. It gives `final_stays`, `known_stays`.
pub fn abstract_final()
    ensures { AbstractFinal }
{}

// Every run of the network is a run of the page.
pub fn refines()
    ensures { Always Refines }
{}

// From whichever page shows the network, whatever comes is some steps.
pub fn runs_are_steps()
    ensures { Always RunsAreSteps }
{}

// A net that a page shows is ordered, whatever it is: `one_order`, `behind_known`, `no_gaps` and `same_log`, from the page alone.
pub fn page_gives()
    ensures { PageGives }
{}

// By steps of a page nothing durable is lost in the nets that it shows: `final_stays` and `known_stays`, from the page alone.
pub fn page_keeps()
    ensures { PageKeeps }
{}

// A letter that was written for what a hut said long ago, and comes late, brings all that is in it.
pub fn late_letter_brings()
    ensures { Always LateLetterBrings }
{}

// Enough walks from one hut to another bring it all that the first knew, whatever other walks there are.
pub fn walks_bring()
    ensures { Always WalksBring }
{}

// Enough walks to the primary, commits there, and walks from it bring all huts to one log, whatever other walks there are.
pub fn any_walks_agree()
    ensures { Always AnyWalksAgree }
{}

// Under every fair schedule of walks and commits all huts come to one log, and stay so.
pub fn fair_agree()
    ensures { Always FairAgree }
{}

// Enough rounds of letters bring a hut all that another had synced, whatever else comes.
pub fn rounds_bring()
    ensures { Always RoundsBring }
{}

// What a hut had synced is committed for good in every hut after enough rounds and commits, whatever else comes.
pub fn synced_settles()
    ensures { Always SyncedSettles }
{}

// In every fair run, whatever else comes, what a hut had synced is committed for good in every hut from some time on.
pub fn fair_run_settles()
    ensures { Always FairRunSettles }
{}

// Hut 0 may commit, and still may when any of what is known is committed.
pub fn zero_keeps_lead()
    ensures { Always ZeroKeepsLead }
{}

// What was ever synced, handed on, or shown to a guest, some hut knows.
pub fn lasting_known()
    ensures { Always LastingKnown }
{}

// What a hut showed as committed at a place stands there ever after.
pub fn shown_stays()
    ensures { Always ShownStays }
{}

// A mark that a hut told to be committed is found at the same place ever after.
pub fn found_stays()
    ensures { Always FoundStays }
{}

// What came of an entry changes only by a later one that names it.
pub fn outcome_stays()
    ensures { OutcomeStays }
{}

// What the committed entries make of one is the same wherever as many are committed, and changes only by a committed one that names it.
pub fn committed_outcome()
    ensures { Always CommittedOutcome }
{}

// A guest that is served finds all that it had made.
pub fn read_your_writes()
    ensures { Always ReadYourWrites }
{}

// A guest that is served finds all that it was shown before.
pub fn monotonic_reads()
    ensures { Always MonotonicReads }
{}

// What is made for a guest stands behind all that it was shown before.
pub fn writes_follow_reads()
    ensures { Always WritesFollowReads }
{}

// What is made for a guest stands behind all that it had made before.
pub fn monotonic_writes()
    ensures { Always MonotonicWrites }
{}

// A letter offers just what the other lacks, in the log's order, and has the first 1,024 of that.
pub fn offers_what_lacks()
    ensures { OffersWhatLacks }
{}

// Without the items that are skipped a letter leaves the very same replica.
pub fn skipped_changes_nothing()
    ensures { SkippedChangesNothing }
{}

// Nor does anything change by what is damaged or kept out.
pub fn kept_out_changes_nothing()
    ensures { KeptOutChangesNothing }
{}

// What is told of and what is kept out are as many entries as a letter's count fields say.
pub fn outcomes_add_up()
    ensures { OutcomesAddUp }
{}

// A call is refused by the lowest number whose condition holds.
pub fn lowest_refusal()
    ensures { LowestRefusal }
{}

// What is told of a committed entry may change though no more is committed.
pub fn told_may_change()
    ensures { ToldMayChange }
{}

// It serves ever after with the slip that it answers.
pub fn serves_again()
    ensures { Always ServesAgain }
{}

// Whatever a replica over its journal hands on is a letter that can be read.
pub fn hands_on_letters()
    ensures { HandsOnLetters }
{}

// Whatever the programs of all huts do, each record that is written can stand in its journal.
pub fn all_stand()
    ensures { AllStand }
{}

// A guest who was served at a hut is served there from then on, whatever the programs of all huts do.
pub fn served_again()
    ensures { ServedAgain }
{}
