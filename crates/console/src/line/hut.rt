// A line as a command of a hut, which knows nothing of rehearsals.
ghost use Rattle.std.specs.Prelude.{◌≡◌, [], true, Ok};
ghost use Rattle.console.specs.Commands.{Said, said, told};
ghost use Rattle.console.specs.HutLines.{hut_says, hut_reads, own_lines, hut_parsed};
ghost use Rattle.console.specs.Lines.{Sayable, line_of};

use super::or_letter;
use crate::command::{Asked, Command, Expected};
use crate::forms::by_verb;
use crate::language::{Verbs, read};
use crate::numbers::Numbers;
use crate::verb::{Verb, read_verb};

// What a line asks of a hut. A line that a command of a hut is written as asks for that command.
pub fn read_hut_command(line: &[u8]) -> Asked
    ensures value { told result ≡ hut_parsed line.now }
    ensures written { (s : Said) → Sayable s → hut_says s ≡ true → line.now ≡ line_of s → told result ≡ Ok s }
{
    or_letter(line, read::<HutVerb>(line))
}

// A verb that a hut reads.
#[derive(Clone, Copy)]
struct HutVerb {
    verb: Verb,
}

impl Verbs for HutVerb {
    type Command = Command;

    type Expected = Expected;

    ghost Said = { Said };

    ghost said = { said [] };

    ghost language = { own_lines };

    fn pass() -> Command {
        Command::Pass
    }

    fn named(word: &[u8]) -> Option<HutVerb> {
        let verb = read_verb(word)?;
        is_hut_verb(verb).then_some(HutVerb { verb })
    }

    fn command(self, numbers: Numbers) -> Option<Command> {
        by_verb(self.verb, numbers)
    }

    fn no_verb() -> Expected {
        Expected::HutCommand
    }

    fn no_form(self) -> Expected {
        Expected::Form { verb: self.verb }
    }
}

fn is_hut_verb(verb: Verb) -> bool
    ensures { result ≡ hut_reads verb }
{
    !matches!(
        verb,
        Verb::Huts | Verb::At | Verb::Walk | Verb::Lose | Verb::Again | Verb::Cut | Verb::Stop
    )
}
