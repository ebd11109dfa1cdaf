// Answers of a rehearsal are written, a line each.
use bookings::refusal::Refusal;
use console::answer::Answer;
use network::unplayed::Unplayed;
use std::io;
use std::io::Write;

pub fn say(out: &mut impl Write, answer: Answer) -> io::Result<()> {
    writeln!(out, "{answer}")
}

// What was done, or nothing where it was refused, which is said. No memory and a journal that failed end the program.
pub fn or_refuse<T>(out: &mut impl Write, told: Result<T, Unplayed>) -> anyhow::Result<Option<T>> {
    match told {
        Ok(done) => Ok(Some(done)),
        Err(Unplayed::Refused(why)) => {
            say(out, Answer::Refused { why })?;
            Ok(None)
        }
        Err(why) => Err(why.into()),
    }
}
