//! Laws of dialogues in rounds. Each function computes nothing, and its contract is the law.
ghost use Rattle.std.specs.Prelude.{◌≡◌, ℕ, ◌<◌, ◌≤◌, ◌++◌, List, length, map};
ghost use Rattle.cep_base.specs.declared.limits.TheConstants.{MOST_LOG};
ghost use Rattle.cep_base.specs.declared.console.Event.{Event};
ghost use Rattle.cep_rule.specs.declared.parts.Parts.{Parts};
ghost use Rattle.cep_rule.specs.Limits.{IsHeight};
ghost use Rattle.cep_rule.specs.Program.{IsProgram};
ghost use Rattle.cep_rule.specs.Stages.{IsQuiet};
ghost use Rattle.cep_rule.specs.State.{IsState};
ghost use Rattle.cep_step.specs.Deeds.{Position, start_of, AreDeeds};
ghost use Rattle.cep_lines.specs.declared.end_word.EndWord.{EndWord};
ghost use Rattle.cep_lines.specs.declared.end_word.EndWord.TheVariants.{Quiet};
ghost use Rattle.cep_log.specs.declared.log.Log.{Log};
ghost use Rattle.cep_log.specs.Legal.{IsLegal};
ghost use Rattle.cep_log.specs.Transcript.{HasLog};
ghost use Rattle.cep_log.specs.Holding.{HoldsDeeds};
ghost use Rattle.cep_run.specs.declared.settings.Settings.{Settings};
ghost use Rattle.cep_run.specs.Deciding.{Supply};
ghost use Rattle.cep_run.specs.Dialogue.{written_bytes};
ghost use Rattle.cep_round.specs.Rounds.{IsRound};
ghost use Rattle.cep_players.specs.Runs.{Round, IsRoundDone, TurnOrRound, EndOfRounds, all_done, done_before, unproved_part, unproved_end, AreTogether, RunsInRounds};
ghost use Rattle.cep_players.specs.Dialogues.{DialogueInRounds};
ghost use Rattle.cep_players.specs.PlayersLaws.{PlayersLaws};
ghost use Rattle.cep_players.specs.Going.{IsDialogueWith};
ghost use Rattle.cep_players.specs.Said.{IsSaidInRounds};

use cep_log::laws::{deeds_have_legal_logs, lines_are_read_as_written};
use cep_round::laws::{
    one_state_after_a_round, rounds_are_lawful, rounds_can_be_done_in_every_order,
    what_is_admitted_is_there,
};
use cep_rule::laws::{
    one_list_of_offers, one_state_after_a_step, steps_lead_to_states, what_is_needed_is_there,
};
use cep_run::laws::{offers_can_be_done, one_choice_is_heard, questions_lead_on, runs_are_there};
use cep_term::laws::bags_are_lawful;

// What runs in rounds rest on.
pub(crate) fn players_are_lawful()
    ensures { PlayersLaws }
{
    bags_are_lawful();
    steps_lead_to_states();
    what_is_needed_is_there();
    what_is_admitted_is_there();
    rounds_can_be_done_in_every_order();
    one_choice_is_heard();
    runs_are_there();
    offers_can_be_done();
    questions_lead_on();
}

/// Whatever is typed, there is a dialogue in rounds, of one player or more.
pub fn dialogues_in_rounds_are_there()
    ensures { (program : Parts) (settings : Settings) (players : ℕ) (come : List ℕ)
        → IsProgram program
        → 0 < players
        → (parts : List TurnOrRound) × (end : EndOfRounds) × (word : EndWord) × (last : Position)
        × (events : List Event) × (rest : List ℕ)
        × DialogueInRounds program settings players come parts end word last events rest }
{
    players_are_lawful();
}

/// What is done in a run in rounds are lawful deeds, one after another; and if it ends with `quiet`,
/// the last stage is quiet.
pub fn rounds_are_deeds()
    ensures deeds { (program : Parts) (settings : Settings) (players : ℕ) (at last : Position)
        (from to : Supply) (parts : List TurnOrRound) (end : EndOfRounds) (word : EndWord)
        → RunsInRounds program settings players at from parts end word last to
        → AreDeeds program settings.height at (all_done parts ++ done_before end) last }
    ensures quiet { (program : Parts) (settings : Settings) (players : ℕ) (at last : Position)
        (from to : Supply) (parts : List TurnOrRound) (end : EndOfRounds) (word : EndWord)
        → RunsInRounds program settings players at from parts end word last to
        → word ≡ Quiet
        → IsQuiet program settings.height last.spot.state last.spot.stage }
{}

/// If a round is done, the state after it is the one to which the admitted offers lead together from
/// the state before it; and so is each round of a dialogue.
pub fn rounds_end_together()
    ensures rounds { (program : Parts) (settings : Settings) (players : ℕ) (at last : Position)
        (from to : Supply) (round : Round)
        → IsProgram program
        → IsState program.signature at.spot.state
        → IsRoundDone program settings players at from round last to
        → IsRound program round.chosen round.flags at.spot.state last.spot.state }
    ensures dialogues { (program : Parts) (settings : Settings) (players : ℕ) (come rest : List ℕ)
        (parts : List TurnOrRound) (end : EndOfRounds) (word : EndWord) (last : Position)
        (events : List Event)
        → IsProgram program
        → DialogueInRounds program settings players come parts end word last events rest
        → AreTogether program (start_of program) parts }
{
    what_is_needed_is_there();
    rounds_are_lawful();
    players_are_lawful();
}

/// What a dialogue in rounds comes to.
pub(crate) fn dialogues_in_rounds_are_said()
    ensures { (program : Parts) (settings : Settings) (players : ℕ) (word : EndWord)
        (come : List ℕ) (events : List Event) (rest : List ℕ)
        → IsProgram program
        → IsHeight settings.height
        → IsDialogueWith program settings players word come events rest
        → IsSaidInRounds program settings players word come events rest }
{
    rounds_are_deeds();
    rounds_end_together();
    rounds_have_logs();
    one_dialogue_in_rounds();
}

/// What is typed determines the whole dialogue in rounds but for the derivations of what is done: its
/// turns and rounds, how it ends, with which word, where, and what is left.
pub fn one_dialogue_in_rounds()
    ensures { (program : Parts) (settings : Settings) (players : ℕ) (come rest rest' : List ℕ)
        (parts parts' : List TurnOrRound) (end end' : EndOfRounds) (word word' : EndWord)
        (last last' : Position) (events events' : List Event)
        → DialogueInRounds program settings players come parts end word last events rest
        → DialogueInRounds program settings players come parts' end' word' last' events' rest'
        → (map unproved_part parts ≡ map unproved_part parts')
        × (unproved_end end ≡ unproved_end end') × (word ≡ word') × (last ≡ last')
        × (rest ≡ rest') }
{
    one_list_of_offers();
    one_state_after_a_step();
    one_choice_is_heard();
    one_state_after_a_round();
}

/// What is written of a dialogue in rounds is a transcript, if it is not too long: its log holds what
/// was done, is legal, and has as many steps as deeds were done. So a check accepts it.
pub fn rounds_have_logs()
    ensures { (program : Parts) (settings : Settings) (players : ℕ) (come rest : List ℕ)
        (parts : List TurnOrRound) (end : EndOfRounds) (word : EndWord) (last : Position)
        (events : List Event)
        → IsProgram program
        → IsHeight settings.height
        → DialogueInRounds program settings players come parts end word last events rest
        → length (written_bytes events) ≤ MOST_LOG
        → (log : Log)
        × HasLog program (written_bytes events) log
        × HoldsDeeds program settings.height (all_done parts ++ done_before end) word
        last.spot.state log
        × IsLegal program log
        × (length log.steps ≡ length (all_done parts ++ done_before end)) }
{
    rounds_are_deeds();
    deeds_have_legal_logs();
    lines_are_read_as_written();
}
