// What a line's first word asks for, of those that have numbers behind them.
ghost use Rattle.std.specs.Prelude.{◌≡◌};
ghost use Rattle.console.specs.Verbs.{verb_of};

#[derive(Clone, Copy)]
pub enum Verb {
    Huts,
    At,
    Book,
    Cancel,
    Change,
    Beds,
    Ink,
    Have,
    Show,
    Line,
    Got,
    Serve,
    Letter,
    Walk,
    Lose,
    Again,
    Cut,
    Stop,
    Help,
}

// The verb that a word names.
pub(crate) fn read_verb(word: &[u8]) -> Option<Verb>
    ensures { result ≡ verb_of word.now }
{
    match word {
        b"huts" => Some(Verb::Huts),
        b"at" => Some(Verb::At),
        b"book" => Some(Verb::Book),
        b"cancel" => Some(Verb::Cancel),
        b"change" => Some(Verb::Change),
        b"beds" => Some(Verb::Beds),
        b"ink" => Some(Verb::Ink),
        b"have" => Some(Verb::Have),
        b"show" => Some(Verb::Show),
        b"line" => Some(Verb::Line),
        b"got" => Some(Verb::Got),
        b"serve" => Some(Verb::Serve),
        b"letter" => Some(Verb::Letter),
        b"walk" => Some(Verb::Walk),
        b"lose" => Some(Verb::Lose),
        b"again" => Some(Verb::Again),
        b"cut" => Some(Verb::Cut),
        b"stop" => Some(Verb::Stop),
        b"help" => Some(Verb::Help),
        _ => None,
    }
}
