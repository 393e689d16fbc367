// The whole command: its words, and what they ask for.
ghost use Rattle.std.specs.Prelude.{◌≡◌, ◌≢◌, ◌⊎◌, ◌<◌, ◌≤◌, [], ◌∷◌, map, string_bytes, IfOk, IfErr, Contains};
ghost use Rattle.cep_base.specs.Talk.{ConsoleCause};
ghost use Rattle.cep_base.specs.Faults.{Rose};
ghost use Rattle.cep_examine.specs.Exchange.{talked, loaded, Went};
ghost use Rattle.cep_play.specs.Answered.{DoesWhatIsDue, IsNoDialogue, IsSpelled, IsWritten, TellsAllThatIsDue, AsksAsSaid, AsksAtMost};
ghost use Rattle.cep_play.specs.Playable.{ChecksWhatCanHaveBeenPlayed};
ghost use Rattle.cep_play.specs.Counted.{RoseByAll};
ghost use Rattle.cep_play.specs.Begun.{BeginsWhatIsDue, AsksPrefixOfAll};
ghost use Rattle.cep_play.specs.Outcome.{CommandDid, InVain};

use crate::laws::one_due;
use crate::play::dialogue;
use crate::reply::{Reply, reply_to};
use cep_base::{Console, ConsoleFault, Shelf, Steps};
use cep_examine::Status;
use cep_examine::laws::one_status;
use cep_ground::laws::clean_parts_are_a_program;
use cep_players::laws::dialogues_in_rounds_are_there;
use cep_replay::laws::{interactive_logs_are_answered, legal_logs_can_be_played};
use cep_run::laws::dialogues_are_there;
use cep_words::laws::one_request;
use std::alloc::Global;
use std::sync::ledger::Ledger;

/// Does what the words ask for, and answers the status of the process.
fn command<C: Console, H: Shelf, L: Ledger>(
    alloc: Global,
    words: &[String],
    console: &mut C,
    shelf: &mut H,
    steps: &mut Steps<L>,
) -> Result<u8, ConsoleFault>
    ensures done { IfOk result (CommandDid (map string_bytes words.now)
        (talked C.talk C.left console.old console.new)
        (loaded H.files H.asked H.faults shelf.old shelf.new) steps.old steps.new) }
    ensures cut_short { IfErr result (λ fault. InVain fault
        (Went (talked C.talk C.left console.old console.new)
        (BeginsWhatIsDue (map string_bytes words.now)
        (loaded H.files H.asked H.faults shelf.old shelf.new))
        × AsksAsSaid (map string_bytes words.now)
        (loaded H.files H.asked H.faults shelf.old shelf.new))
        ((console.new ≡ console.old) × AsksAtMost (map string_bytes words.now)
        (loaded H.files H.asked H.faults shelf.old shelf.new))) }
    ensures cause { ConsoleCause (C.faults console.old) (C.faults console.new) result }
    ensures files { H.files shelf.new ≡ H.files shelf.old }
    ensures counted { steps.old ≤ steps.new }
{
    one_request();
    match reply_to(alloc, words, shelf, steps)? {
        Reply::Report(report) => report.put(console),
        Reply::Dialogue { program, options } => {
            let word = dialogue(alloc, &program, options, console, steps)?;
            Ok(Status::of_run(word).code())
        }
    }
}

/// Does all that the program does: reads the program that the words name from the shelf, plays it
/// with the person at the console, or with several in rounds, or checks a transcript against it,
/// which it may renew, list the graph of, or do again in another order, or runs a generated world,
/// and answers the status that the process ends with.
///
/// | status | comes |
/// |---|---|
/// | 0 | the run ended in quiet or at the end of the input; the transcript is accepted or renewed, its graph is listed or its steps are done again; no claim is broken; dead rules are reported |
/// | 1 | the second file is not accepted, or the new text is too long; the line says which |
/// | 2 | the words are malformed; the usage line was written |
/// | 3 | the program's text is refused; the line that says so was written |
/// | 4 | the run ended by a limit |
/// | 5 | some claim is broken; each claim has its line; or a step of another order leads to a state that does not fit |
/// | 6 | the console failed |
/// | 7 | a file could not be read; the line that says which was written |
/// | 9 | memory ran out |
///
/// After 6 what was said and heard is a prefix of something that is due, and after 9 too, or
/// nothing was said and heard. `steps` counts matching steps: attempts to extend a match, and
/// backward premises that are asked.
pub fn ceptre<C: Console, H: Shelf, L: Ledger>(
    alloc: Global,
    words: &[String],
    console: &mut C,
    shelf: &mut H,
    steps: &mut Steps<L>,
) -> u8
    // Where the console and memory hold, what is due of the words was done, or what is due where a
    // file could not be read; and the status is its code.
    ensures answered { result ≢ 6 → result ≢ 9 → Went (talked C.talk C.left console.old console.new)
        (DoesWhatIsDue (map string_bytes words.now)
        (loaded H.files H.asked H.faults shelf.old shelf.new) result) }

    // What is no dialogue was written so whether or not the console tells what is to be typed, and
    // nothing was read.
    ensures written { result ≢ 6 → result ≢ 9 → IsNoDialogue (map string_bytes words.now) result
        → IsWritten (map string_bytes words.now) (talked C.talk C.left console.old console.new)
        (loaded H.files H.asked H.faults shelf.old shelf.new) result }
    ensures spelled { IsSpelled (map string_bytes words.now) (H.files shelf.old) result }

    // Where the console failed, what was said and heard is the beginning of something that is due;
    // and where memory ran out too, or else nothing was done with the console.
    ensures begun { result ≡ 6 → Went (talked C.talk C.left console.old console.new)
        (BeginsWhatIsDue (map string_bytes words.now)
        (loaded H.files H.asked H.faults shelf.old shelf.new)) }
    ensures begun_or_silent { result ≡ 9 → Went (talked C.talk C.left console.old console.new)
        (BeginsWhatIsDue (map string_bytes words.now)
        (loaded H.files H.asked H.faults shelf.old shelf.new))
        ⊎ ((console.new ≡ console.old) × AsksPrefixOfAll (map string_bytes words.now)
        (loaded H.files H.asked H.faults shelf.old shelf.new)) }

    // Whatever comes, the status says what is due: a run is there whatever is typed, and the status
    // says how it ends, or what is reported of a transcript.
    ensures due { TellsAllThatIsDue
        (map string_bytes words.now) (H.files shelf.old) (C.left console.old) result }
    ensures no_other { Contains (0 ∷ 1 ∷ 2 ∷ 3 ∷ 4 ∷ 5 ∷ 6 ∷ 7 ∷ 9 ∷ []) result }

    // A transcript that is accepted can have been played.
    ensures playable { result ≡ 0
        → ChecksWhatCanHaveBeenPlayed (map string_bytes words.now) (H.files shelf.old) }

    // Faults of the outside have their statuses, and these come for nothing else.
    ensures shelf_failed { result ≡ 7 → Rose (H.faults shelf.old) (H.faults shelf.new) }
    ensures shelf_fails { H.faults shelf.old < H.faults shelf.new
        → Contains (6 ∷ 7 ∷ 9 ∷ []) result }
    ensures console_failed { result ≡ 6 → Rose (C.faults console.old) (C.faults console.new) }
    ensures console_fails { C.faults console.old < C.faults console.new → result ≡ 6 }

    // The shelf is asked for the program once, for the transcript once where one is checked against
    // a program, and for nothing else: for a generated world it is not asked.
    ensures asked { result ≢ 9 → AsksAsSaid (map string_bytes words.now)
        (loaded H.files H.asked H.faults shelf.old shelf.new) }
    ensures asked_at_most { result ≡ 9 → AsksAtMost (map string_bytes words.now)
        (loaded H.files H.asked H.faults shelf.old shelf.new) }
    ensures files { H.files shelf.new ≡ H.files shelf.old }

    // Where one plays, or nobody, the counter of matching steps rises by no more than what the
    // network may tick for the turns that were done, and one for each backward premise of what was
    // done in them. It never falls.
    ensures ticked { (result ≡ 0) ⊎ (result ≡ 4)
        → RoseByAll (talked C.talk C.left console.old console.new) (H.files shelf.old)
        steps.old steps.new (map string_bytes words.now) }
    ensures counted { steps.old ≤ steps.new }
{
    one_request();
    one_due();
    dialogues_are_there();
    dialogues_in_rounds_are_there();
    clean_parts_are_a_program();
    legal_logs_can_be_played();
    interactive_logs_are_answered();
    one_status();
    match command(alloc, words, console, shelf, steps) {
        Ok(code) => code,
        Err(ConsoleFault::Failed) => 6,
        Err(ConsoleFault::Memory(_)) => 9,
    }
}
