// A line of a language as a command: a verb, and numbers behind it.
ghost use Rattle.std.specs.Prelude.{◌≡◌, take};
ghost use Rattle.std.specs.Option.{option_map};
ghost use Rattle.console.specs.Languages.{Language, alone_in, with_numbers_in, by_verb_in, parsed_in, told_as};
ghost use Rattle.console.specs.Numbers.{numbers_of};
ghost use Rattle.console.specs.Words.{words};
ghost use Rattle.console.specs.declared.numbers.TheConstants.{MAX_NUMBERS};

use crate::numbers::Numbers;
use crate::words::first_word;

// The verbs of a language.
pub(crate) trait Verbs: Copy {
    type Command: Copy;
    // What a line should have been.
    type Expected: Copy;

    // What a command says, without its layout.
    ghost Said: { Type 0 };

    ghost said: { Self.Command → Self.Said };

    ghost language: { Language Self Self.Said Self.Expected };

    // What a line asks for that says nothing.
    fn pass() -> Self::Command
        ensures { Self.said result ≡ (Self.language).pass };

    // The verb that a word names.
    fn named(word: &[u8]) -> Option<Self>
        ensures { result ≡ (Self.language).verb_of word.now };

    // The command of a verb and numbers, unless their count is wrong.
    fn command(self, numbers: Numbers) -> Option<Self::Command>
        ensures { option_map Self.said result ≡ (Self.language).said_by self (take numbers.count numbers.all) };

    // What was expected where no verb stands.
    fn no_verb() -> Self::Expected
        ensures { result ≡ (Self.language).no_verb };

    // What was expected where the numbers behind a verb do not have its form.
    fn no_form(self) -> Self::Expected
        ensures { result ≡ (Self.language).no_form self };
}

// What a line asks for, without its line break.
pub(crate) fn read<V: Verbs>(line: &[u8]) -> Result<V::Command, V::Expected>
    ensures { told_as V.said result ≡ parsed_in V.language line.now }
{
    let Some((word, rest)) = first_word(line) else {
        return Ok(V::pass());
    };
    if word[0] == b'#' {
        return Ok(V::pass());
    }
    read_verb::<V>(word, rest)
}

// What a verb's name asks for, with what stands behind it.
fn read_verb<V: Verbs>(word: &[u8], rest: &[u8]) -> Result<V::Command, V::Expected>
    ensures { told_as V.said result ≡ by_verb_in V.language ((V.language).verb_of word.now) (words rest.now) }
{
    let verb = V::named(word).ok_or(V::no_verb())?;
    read_form(verb, rest).ok_or(verb.no_form())
}

fn read_form<V: Verbs>(verb: V, rest: &[u8]) -> Option<V::Command>
    ensures { option_map V.said result ≡ with_numbers_in V.language verb (numbers_of MAX_NUMBERS (words rest.now)) }
{
    let numbers = Numbers::read(rest)?;
    verb.command(numbers)
}

// The command of a verb that stands alone.
pub(crate) fn alone<C: Copy>(command: C, numbers: &[u64]) -> Option<C>
    ensures { result ≡ alone_in command numbers.now }
{
    match numbers {
        [] => Some(command),
        _ => None,
    }
}
