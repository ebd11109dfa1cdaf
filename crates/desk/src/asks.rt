// What a line asks for is done.
ghost use Rattle.std.specs.Prelude.{◌≡◌, ℕ, ◌<◌, Ok, Err, MatchResult, OnOk};
ghost use Rattle.bookings.specs.Refusals.{number_of};
ghost use Rattle.console.specs.Requests.{asked};
ghost use Rattle.console.specs.Checks.{Fits32, RequestOk, StampsFit};
ghost use Rattle.console.specs.Hexes.{bytes_of};
ghost use Rattle.console.specs.declared.answer.Answer.TheVariants.{Refused as RefusedAnswer};
ghost use Rattle.console.specs.declared.command.Command.TheVariants as commands;
ghost use Rattle.desk.specs.Composed.{ForGuest, GuestComposes, Honest, LineComposes};
ghost use Rattle.desk.specs.Guests.{LineServes};
ghost use Rattle.desk.specs.Steps.{LineBrings, LineFinds, LineWrites, Rests, RestsAs, line_makes, line_refused, shows, takes_typed};
ghost use Rattle.desk.specs.Replies.{Shown, Hidden, Told, TypedTold, Untold};
ghost use Rattle.desk.specs.declared.reply.Reply.TheVariants.{Line};
ghost use Rattle.journal.specs.Finding.{FindsOf};
ghost use Rattle.journal.specs.History.{Kept, synced, makes, commits};
ghost use Rattle.letters.specs.Letters.{encode_letter};
ghost use Rattle.network.specs.Effects.{commits_synced};
ghost use Rattle.network.specs.Mail.{Mail};
ghost use Rattle.network.specs.Net.{Guest, huts};
ghost use Rattle.network.specs.Taking.{letter_for, take_bytes};
ghost use Rattle.network.specs.declared.unplayed.Unplayed.TheVariants.{Memory, Refused, Failed};
ghost use Rattle.replica.specs.Views.{state_of};

use crate::answers;
use crate::calls::Desk;
use crate::page::Page;
use crate::reply::Reply;
use bookings::refusal::Refusal;
use console::answer::Answer;
use console::answer::letters::Taking;
use console::answer::starts::Usage;
use console::command::Command;
use console::hex::Hex;
use console::mark::RawMark;
use console::request::Request;
use console::vector::RawVector;
use journal::fault::Fault;
use network::unplayed::Unplayed;
use replica::replica::Replica;
use replica::summary::Summary;

// Does what a line asks for, and says what is to be told; refused by a number where the rules say so.
pub fn ask<D: Desk>(
    desk: &mut D,
    page: &mut Page,
    command: &Command,
    letter: Hex,
) -> Result<Reply, Unplayed>
    ensures answer { MatchResult result
        (Told (D.state desk.old) (D.state desk.new) command.now)
        (Untold (D.state desk.old) (D.state desk.new) (D.shut desk.new) command.now) }
    ensures leaves { (k : Kept) → D.keeps desk.old k → MatchResult result (λ _. D.keeps desk.new (line_makes command.now (bytes_of letter.entry.digits.now) k)) (RestsAs (D.keeps desk.new) k (line_refused command.now k) (LineFinds (D.finds desk.new) command.now (bytes_of letter.entry.digits.now) k)) }
    ensures beside { (kept : ℕ → Kept) → D.beside desk.old kept → D.beside desk.new kept }
    ensures places { D.places desk.new ≡ D.places desk.old }
    ensures writes { OnOk result (LineWrites page.new.bytes.items command.now (D.state desk.old)) }
    ensures brings { (k : Kept) → D.keeps desk.old k → OnOk result (LineBrings (D.kept_out desk.new) (D.came desk.new) command.now (bytes_of letter.entry.digits.now) k) }
    ensures network { (m : Mail) (i : ℕ) → i < huts → D.keeps desk.old (m.hut i) → Honest m command.now (bytes_of letter.entry.digits.now)
        → LineComposes (D.keeps desk.new) (D.finds desk.new) i command.now (bytes_of letter.entry.digits.now) page.new.bytes.items m result }
    ensures guests { (m : Mail) (g i : ℕ) → i < huts → D.keeps desk.old (m.hut i) → ForGuest g i m command.now → GuestComposes (D.keeps desk.new) g i command.now m result }
    ensures serves { (k : Kept) (guest : Guest) → D.keeps desk.old k → LineServes command.now result guest k }
    ensures taken { command.now ≡ commands.Take → OnOk result (TypedTold (bytes_of letter.entry.digits.now) result) }
{
    match command {
        Command::Make { request } => make(desk, request),
        Command::Ink => commit(desk),
        Command::Letter { committed, vector } => write(desk, page, *committed, vector),
        Command::Take => hear(desk, page, letter),
        Command::Help => {
            let usage = Usage::Hut;
            Ok(Reply::Line(Answer::Usage { usage }))
        }
        _ => show(desk, command),
    }
}

// A refusal is told too; what else went wrong is not.
pub fn or_refused(asked: Result<Reply, Unplayed>) -> Result<Reply, Unplayed>
    ensures { MatchResult asked (λ r. result ≡ Ok r) (λ e. elim e [
      | Memory ↦ result ≡ Err Memory
      | Refused w ↦ result ≡ Ok (Line (RefusedAnswer w))
      | Failed f ↦ result ≡ Err (Failed f)
    ]) }
{
    match asked {
        Err(Unplayed::Refused(why)) => Ok(Reply::Line(Answer::Refused { why })),
        asked => asked,
    }
}

fn make<D: Desk>(desk: &mut D, request: &Request) -> Result<Reply, Unplayed>
    ensures keeps { (k : Kept) → D.keeps desk.old k → MatchResult result (λ _. D.keeps desk.new (synced (makes (asked request.now) k))) (Rests (D.keeps desk.new) k (RequestOk (asked request.now) × FindsOf (D.finds desk.new) (makes (asked request.now) k))) }
    ensures beside { (kept : ℕ → Kept) → D.beside desk.old kept → D.beside desk.new kept }
    ensures places { D.places desk.new ≡ D.places desk.old }
    ensures answer { MatchResult result
        (Told (D.state desk.old) (D.state desk.new) (commands.Make request.now))
        (Untold (D.state desk.old) (D.state desk.new) (D.shut desk.new) (commands.Make request.now)) }
{
    let kind = request.kind()?;
    let mark = RawMark::from(desk.make(kind)?);
    Ok(Reply::Line(Answer::Made { mark }))
}

// What was committed stands last of all that is.
fn commit<D: Desk>(desk: &mut D) -> Result<Reply, Unplayed>
    ensures keeps { (k : Kept) → D.keeps desk.old k → MatchResult result (λ _. D.keeps desk.new (commits_synced k)) (Rests (D.keeps desk.new) k (FindsOf (D.finds desk.new) (commits k))) }
    ensures beside { (kept : ℕ → Kept) → D.beside desk.old kept → D.beside desk.new kept }
    ensures places { D.places desk.new ≡ D.places desk.old }
    ensures answer { MatchResult result
        (Told (D.state desk.old) (D.state desk.new) commands.Ink)
        (Untold (D.state desk.old) (D.state desk.new) (D.shut desk.new) commands.Ink) }
{
    let first = desk.commit()?;
    if first.is_none() {
        return Ok(Reply::Line(Answer::NothingTentative));
    }
    desk.sync()?;
    let replica = desk.shown().ok_or(Fault::Shut)?;
    let place = replica.committed().saturating_sub(1);
    Ok(Reply::Line(answers::committed(first, place)))
}

fn write<D: Desk>(
    desk: &mut D,
    page: &mut Page,
    committed: u64,
    vector: &RawVector,
) -> Result<Reply, Unplayed>
    ensures keeps { (k : Kept) → D.keeps desk.old k → MatchResult result (λ _. D.keeps desk.new (synced k)) (Rests (D.keeps desk.new) k (FindsOf (D.finds desk.new) k)) }
    ensures beside { (kept : ℕ → Kept) → D.beside desk.old kept → D.beside desk.new kept }
    ensures places { D.places desk.new ≡ D.places desk.old }
    ensures letter { OnOk result (page.new.bytes.items ≡ encode_letter (letter_for committed vector.now.all (D.state desk.old))) }
    ensures answer { MatchResult result
        (Told (D.state desk.old) (D.state desk.new) (commands.Letter committed vector.now))
        (Untold (D.state desk.old) (D.state desk.new) (D.shut desk.new) (commands.Letter committed vector.now)) }
{
    let has = summary(committed, vector)?;
    desk.write(&has, page)?;
    Ok(Reply::Letter)
}

// What a hut is said to have; refused where a number is out of range (2).
fn summary(committed: u64, vector: &RawVector) -> Result<Summary, Refusal>
    ensures { MatchResult result
        (λ has. Fits32 committed × StampsFit vector.now.all × (has.committed ≡ committed) × (has.vector.stamps ≡ vector.now.all))
        (λ e. (number_of e ≡ 2) × (Fits32 committed × StampsFit vector.now.all → ⊥)) }
{
    let committed = u32::try_from(committed).map_err(|_| Refusal::OutOfRange)?;
    let vector = vector.vector()?;
    Ok(Summary {
        committed: committed as usize,
        vector,
    })
}

// A letter comes. One that has more bytes than any letter is none.
fn hear<D: Desk>(desk: &mut D, page: &mut Page, letter: Hex) -> Result<Reply, Unplayed>
    ensures taken { OnOk result (TypedTold (bytes_of letter.entry.digits.now) result) }
    ensures keeps { (k : Kept) → D.keeps desk.old k → MatchResult result (λ _. D.keeps desk.new (takes_typed (bytes_of letter.entry.digits.now) k)) (Rests (D.keeps desk.new) k (FindsOf (D.finds desk.new) (take_bytes (bytes_of letter.entry.digits.now) k))) }
    ensures beside { (kept : ℕ → Kept) → D.beside desk.old kept → D.beside desk.new kept }
    ensures places { D.places desk.new ≡ D.places desk.old }
    ensures report { (k : Kept) → D.keeps desk.old k → OnOk result (LineBrings (D.kept_out desk.new) (D.came desk.new) commands.Take (bytes_of letter.entry.digits.now) k) }
    ensures answer { MatchResult result
        (Told (D.state desk.old) (D.state desk.new) commands.Take)
        (Untold (D.state desk.old) (D.state desk.new) (D.shut desk.new) commands.Take) }
{
    if page.decode(letter).is_err() {
        let why = Refusal::Damaged;
        let taking = Taking::Rejected { why };
        return Ok(Reply::Line(Answer::Take { taking }));
    }
    desk.hear(page.bytes())?;
    Ok(Reply::Takings)
}

// What is shown is synced first, also where the answer is a refusal.
fn show<D: Desk>(desk: &mut D, command: &Command) -> Result<Reply, Unplayed>
    ensures keeps { (k : Kept) → D.keeps desk.old k → MatchResult result (λ _. D.keeps desk.new (shows command.now k)) (RestsAs (D.keeps desk.new) k (shows command.now k) (FindsOf (D.finds desk.new) k)) }
    ensures beside { (kept : ℕ → Kept) → D.beside desk.old kept → D.beside desk.new kept }
    ensures places { D.places desk.new ≡ D.places desk.old }
    ensures serves { (k : Kept) (guest : Guest) → D.keeps desk.old k → LineServes command.now result guest k }
    ensures answer { MatchResult result
        (Shown (D.state desk.new) command.now)
        (λ e. elim e [ Memory ↦ ⊥ | Refused w ↦ Hidden (D.state desk.new) command.now (number_of w) | Failed f ↦ D.shut desk.new ]) }
{
    if let Command::Pass = command {
        return Ok(Reply::Nothing);
    }
    desk.sync()?;
    let replica = desk.shown().ok_or(Fault::Shut)?;
    Ok(told(replica, command)?)
}

fn told(replica: &Replica, command: &Command) -> Result<Reply, Refusal>
    ensures { MatchResult result
        (Shown (state_of replica.now) command.now)
        (λ e. Hidden (state_of replica.now) command.now (number_of e)) }
{
    match command {
        Command::Have => Ok(Reply::Line(answers::have(replica))),
        Command::ShowNight { hut, night } => {
            Ok(Reply::Line(answers::night(replica, *hut, *night)?))
        }
        Command::Show => Ok(Reply::Book),
        Command::Line => Ok(Reply::Log),
        Command::Got { mark } => Ok(Reply::Line(answers::got(replica, mark)?)),
        Command::Serve { slip } => Ok(Reply::Line(answers::served(replica, slip)?)),
        _ => Ok(Reply::Nothing),
    }
}
