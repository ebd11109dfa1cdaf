// Which word asks for what, of a slip.
ghost use Rattle.std.specs.Prelude.{◌≡◌};
ghost use Rattle.console.specs.Slips.{slip_verb_of};

use super::SlipVerb;

// The verb that a word names. A table beside that of `verb.rt`: each has the names of its own verbs.
pub(crate) fn read_slip_verb(word: &[u8]) -> Option<SlipVerb>
    ensures { result ≡ slip_verb_of word.now }
{
    match word {
        b"slip" => Some(SlipVerb::Slip),
        b"may" => Some(SlipVerb::May),
        b"add" => Some(SlipVerb::Add),
        b"help" => Some(SlipVerb::Help),
        _ => None,
    }
}
