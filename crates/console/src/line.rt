// A line as a command.
ghost use Rattle.std.specs.Prelude.{◌≡◌, [], Ok, Err, MatchOption};
ghost use Rattle.std.specs.Option.{option_map};
ghost use Rattle.console.specs.Commands.{Said, said, taken, told, plainly, parsed, hut_lines, behind_take, taken_by, or_taken};
ghost use Rattle.console.specs.declared.command.Expected.TheVariants.{Take};
ghost use Rattle.console.specs.Hexes.{bytes_of};
ghost use Rattle.console.specs.Lines.{Sayable, line_of};
ghost use Rattle.console.specs.Words.{words};

use crate::command::{Asked, Command, Expected};
use crate::forms::by_verb;
use crate::hex::Hex;
use crate::language::{Verbs, read};
use crate::numbers::Numbers;
use crate::verb::{Verb, read_verb};
use crate::words::first_word;

mod hut;

pub use self::hut::read_hut_command;

// What a line asks for, without its line break. A line that a command is written as asks for that command.
pub fn read_command(line: &[u8]) -> Asked
    ensures value { told result ≡ parsed line.now }
    ensures written { (s : Said) → Sayable s → line.now ≡ line_of s → told result ≡ Ok s }
{
    or_letter(line, read::<Verb>(line))
}

// A line that brings a letter, or what was read of it in a language.
fn or_letter(line: &[u8], read: Result<Command, Expected>) -> Asked
    ensures { told result ≡ or_taken (behind_take (words line.now)) (plainly read) }
{
    match behind_take(line) {
        Some(rest) => read_take(rest),
        None => plain(read),
    }
}

// What stands behind `take`, if that is a line's first word.
fn behind_take(line: &[u8]) -> Option<&[u8]>
    ensures { option_map (λ rest. words rest.now) result ≡ behind_take (words line.now) }
{
    let (word, rest) = first_word(line)?;
    match word {
        b"take" => Some(rest),
        _ => None,
    }
}

fn read_take(rest: &[u8]) -> Asked
    ensures { told result ≡ taken_by (words rest.now) }
{
    match read_letter(rest) {
        Some(letter) => Asked {
            command: Ok(Command::Take),
            letter,
        },
        None => plain(Err(Expected::Take)),
    }
}

// The digits of a letter, which are one word and the last.
fn read_letter(rest: &[u8]) -> Option<Hex>
    ensures { MatchOption result
        (taken_by (words rest.now) ≡ Err Take)
        (λ letter. taken_by (words rest.now) ≡ Ok (taken (bytes_of letter.digits.now))) }
{
    let (word, more) = first_word(rest)?;
    if !Hex::fits(word) || first_word(more).is_some() {
        return None;
    }
    Some(Hex::of(word))
}

// A command that brings no letter.
fn plain<'a>(command: Result<Command, Expected>) -> Asked<'a>
    ensures { told result ≡ plainly command }
{
    Asked {
        command,
        letter: Hex::none(),
    }
}

impl Verbs for Verb {
    type Command = Command;

    type Expected = Expected;

    ghost Said = { Said };

    ghost said = { said [] };

    ghost language = { hut_lines };

    fn pass() -> Command {
        Command::Pass
    }

    fn named(word: &[u8]) -> Option<Verb> {
        read_verb(word)
    }

    fn command(self, numbers: Numbers) -> Option<Command> {
        by_verb(self, numbers)
    }

    fn no_verb() -> Expected {
        Expected::Command
    }

    fn no_form(self) -> Expected {
        Expected::Form { verb: self }
    }
}
