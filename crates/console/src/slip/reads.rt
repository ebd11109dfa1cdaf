// A line as a command of a slip.
ghost use Rattle.std.specs.Prelude.{◌≡◌, Ok};
ghost use Rattle.console.specs.Languages.{sixteen_in};
ghost use Rattle.console.specs.Slips.{SlipSaid, may, add, slip_said, slip_said_if, slip_told, slip_parsed, slip_lines, SlipSayable, slip_line_of};

use super::verb::read_slip_verb;
use super::{SlipCommand, SlipExpected, SlipVerb};
use crate::language::{Verbs, alone, read};
use crate::numbers::Numbers;
use crate::vector::RawVector;

// What a line asks for, without its line break. A line that a command is written as asks for that command.
pub fn read_slip_command(line: &[u8]) -> Result<SlipCommand, SlipExpected>
    ensures value { slip_told result ≡ slip_parsed line.now }
    ensures written { (s : SlipSaid) → SlipSayable s → line.now ≡ slip_line_of s → slip_told result ≡ Ok s }
{
    read::<SlipVerb>(line)
}

impl Verbs for SlipVerb {
    type Command = SlipCommand;

    type Expected = SlipExpected;

    ghost Said = { SlipSaid };

    ghost said = { slip_said };

    ghost language = { slip_lines };

    fn pass() -> SlipCommand {
        SlipCommand::Pass
    }

    fn named(word: &[u8]) -> Option<SlipVerb> {
        read_slip_verb(word)
    }

    fn command(self, numbers: Numbers) -> Option<SlipCommand> {
        let numbers = numbers.as_slice();
        match self {
            SlipVerb::Slip => alone(SlipCommand::Slip, numbers),
            SlipVerb::May => may(numbers),
            SlipVerb::Add => add(numbers),
            SlipVerb::Help => alone(SlipCommand::Help, numbers),
        }
    }

    fn no_verb() -> SlipExpected {
        SlipExpected::Command
    }

    fn no_form(self) -> SlipExpected {
        SlipExpected::Form { verb: self }
    }
}

// `may`, `add` and `serve` are two lines each: a helper would take the constructor to save one of them.
fn may(numbers: &[u64]) -> Option<SlipCommand>
    ensures { slip_said_if result ≡ sixteen_in may numbers.now }
{
    let vector = RawVector::read(numbers)?;
    Some(SlipCommand::May { vector })
}

fn add(numbers: &[u64]) -> Option<SlipCommand>
    ensures { slip_said_if result ≡ sixteen_in add numbers.now }
{
    let vector = RawVector::read(numbers)?;
    Some(SlipCommand::Add { vector })
}
