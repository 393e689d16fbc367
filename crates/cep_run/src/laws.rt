//! Laws of runs and dialogues. Each function computes nothing, and its contract is the law.
ghost use Rattle.std.specs.Prelude.{◌≡◌, ◌⊎◌, ℕ, ◌+◌, ◌<◌, ◌≤◌, ◌^◌, List, [], length, map, Some, slice_get};
ghost use Rattle.std.specs.List.{AllByRecursion};
ghost use Rattle.cep_base.specs.declared.console.Event.{Event};
ghost use Rattle.cep_rule.specs.declared.parts.Parts.{Parts};
ghost use Rattle.cep_rule.specs.declared.rule.Rule.{Rule};
ghost use Rattle.cep_rule.specs.declared.offer.Offer.{Offer};
ghost use Rattle.cep_rule.specs.Offers.{IsOffer};
ghost use Rattle.cep_rule.specs.Stages.{IsAsked};
ghost use Rattle.cep_step.specs.declared.limit.Limit.{Limit};
ghost use Rattle.cep_step.specs.Passing.{Passes};
ghost use Rattle.cep_lines.specs.declared.end_word.EndWord.{EndWord};
ghost use Rattle.cep_run.specs.declared.choice.Choice.{Choice};
ghost use Rattle.cep_run.specs.Choice.{Hears, IsChoiceWithin};
ghost use Rattle.cep_rule.specs.State.{IsState};
ghost use Rattle.cep_rule.specs.Program.{IsProgram};
ghost use Rattle.cep_rule.specs.Limits.{IsHeight};
ghost use Rattle.cep_base.specs.declared.limits.TheConstants.{MOST_LOG};
ghost use Rattle.cep_log.specs.declared.log.Log.{Log};
ghost use Rattle.cep_log.specs.Legal.{IsLegal};
ghost use Rattle.cep_log.specs.Transcript.{HasLog};
ghost use Rattle.cep_log.specs.Holding.{HoldsDeeds};
ghost use Rattle.cep_run.specs.declared.settings.Settings.{Settings};
ghost use Rattle.cep_run.specs.Deciding.{Supply};
ghost use Rattle.cep_step.specs.Deeds.{Position, Deed, IsDeed, AreDeeds};
ghost use Rattle.cep_run.specs.Run.{Question, Turn, Ending, IsQuestion, IsTurn, AreTurns, EndsAt, Run, deeds_of, unproved};
ghost use Rattle.cep_run.specs.Dialogue.{question_events, turn_events, written_bytes, Dialogue};
ghost use Rattle.cep_run.specs.Fronts.{BeginsSome, LeavesUnheard, IsRunOf};

use cep_choice::laws::drawn_places_are_within;
use cep_complete::laws::offers_are_there;
use cep_log::laws::{deeds_have_legal_logs, lines_are_read_as_written};
use cep_rule::laws::{
    edits_are_steps, one_list_of_offers, one_state_after_a_step, steps_lead_to_states,
};

/// Whatever is typed, one choice is heard. A place that it chooses is one of those that there are,
/// and what was heard is gone from the bytes to come.
pub fn one_choice_is_heard()
    ensures there { (n taken : ℕ) (come : List ℕ)
        → (events : List Event) × (choice : Choice) × (rest : List ℕ) × (taken' : ℕ)
        × Hears n come taken events choice rest taken' }
    ensures one { (n taken many many' : ℕ) (come rest rest' : List ℕ) (events events' : List Event)
        (choice choice' : Choice)
        → n < 2 ^ 32
        → Hears n come taken events choice rest many
        → Hears n come taken events' choice' rest' many'
        → (events ≡ events') × (choice ≡ choice') × (rest ≡ rest') × (many ≡ many') }
    ensures within { (n taken many : ℕ) (come rest : List ℕ) (events : List Event) (choice : Choice)
        → Hears n come taken events choice rest many
        → IsChoiceWithin n choice × LeavesUnheard come events rest }
{}

/// An offer of the group that a stage asks can be done as a deed, or its step passes a limit.
pub fn offers_can_be_done()
    ensures { (program : Parts) (height : ℕ) (at : Position) (group : ℕ) (offer : Offer)
        → IsProgram program
        → IsState program.signature at.spot.state
        → IsAsked program height at.spot.state at.spot.stage group
        → IsOffer program height at.spot.state group offer
        → ((deed : Deed) × (deed.before ≡ at) × (deed.offer ≡ offer) × IsDeed program height deed)
        ⊎ ((rule : Rule) × (passed : Limit) × (slice_get program.rules offer.rule ≡ Some rule)
        × Passes program.signature rule offer.values at.spot.state passed) }
{
    edits_are_steps();
}

/// Each question that is asked leads to a turn, or the run ends with it.
pub fn questions_lead_on()
    ensures { (program : Parts) (settings : Settings) (at : Position) (from : Supply)
        (question : Question) (to : Supply)
        → IsProgram program
        → IsState program.signature at.spot.state
        → IsQuestion program settings at from question to
        → ((turn : Turn) × IsTurn program settings at from turn × (turn.question ≡ question))
        ⊎ ((word : EndWord) × EndsAt program settings at from word (Some question) to) }
{
    offers_are_there();
    steps_lead_to_states();
    edits_are_steps();
    drawn_places_are_within();
}

/// From a position with a supply one question is asked at most, and one turn is done at most but for
/// its derivations.
pub fn one_turn()
    ensures questions { (program : Parts) (settings : Settings) (at : Position) (from : Supply)
        (question question' : Question) (to to' : Supply)
        → IsQuestion program settings at from question to
        → IsQuestion program settings at from question' to'
        → (question ≡ question') × (to ≡ to') }
    ensures turns { (program : Parts) (settings : Settings) (at : Position) (from : Supply)
        (turn turn' : Turn)
        → IsTurn program settings at from turn
        → IsTurn program settings at from turn'
        → (unproved turn ≡ unproved turn') × (turn.deed.after ≡ turn'.deed.after)
        × (turn.left ≡ turn'.left) }
{
    one_list_of_offers();
    one_state_after_a_step();
}

/// From a position, what is typed and the seed determine the run: its turns, but for the derivations
/// that they carry, how it ends, and what is left of the supply.
pub fn one_run()
    ensures { (program : Parts) (settings : Settings) (at : Position) (from : Supply)
        (turns turns' : List Turn) (ending ending' : Ending) (to to' : Supply)
        → Run program settings at from turns ending to
        → Run program settings at from turns' ending' to'
        → (map unproved turns ≡ map unproved turns') × (ending ≡ ending') × (to ≡ to') }
{
    one_list_of_offers();
    one_state_after_a_step();
}

/// What is typed determines the whole dialogue but for the derivations of its turns, how it ends, and
/// what is left; and where no rule has a backward premise, event by event.
pub fn one_dialogue()
    ensures but_for_proofs { (program : Parts) (settings : Settings) (come : List ℕ)
        (turns turns' : List Turn) (ending ending' : Ending) (events events' : List Event)
        (rest rest' : List ℕ)
        → Dialogue program settings come turns ending events rest
        → Dialogue program settings come turns' ending' events' rest'
        → (map unproved turns ≡ map unproved turns') × (ending ≡ ending') × (rest ≡ rest') }
    ensures to_the_byte { (program : Parts) (settings : Settings) (come : List ℕ)
        (turns turns' : List Turn) (ending ending' : Ending) (events events' : List Event)
        (rest rest' : List ℕ)
        → AllByRecursion (λ rule. rule.backs ≡ []) program.rules
        → Dialogue program settings come turns ending events rest
        → Dialogue program settings come turns' ending' events' rest'
        → events ≡ events' }
{
    one_run();
}

/// What was done in the turns of a run are lawful deeds, one after another, which can be checked
/// without what was typed.
pub fn turns_are_deeds()
    ensures { (program : Parts) (settings : Settings) (at : Position) (from : Supply)
        (turns : List Turn) (last : Position) (to : Supply)
        → AreTurns program settings at from turns last to
        → AreDeeds program settings.height at (deeds_of turns) last }
{}

/// As many deeds are done as the last position counts more turns than the first.
pub fn deeds_are_counted()
    ensures { (program : Parts) (height : ℕ) (at : Position) (deeds : List Deed) (last : Position)
        → AreDeeds program height at deeds last
        → last.turns ≡ at.turns + length deeds }
{}

/// From each position at which turns remain or just ended, a run is there, whatever is typed: in each
/// state of a program some turn can be done, or the run ends for a named reason.
pub fn runs_are_there()
    ensures { (program : Parts) (settings : Settings) (at : Position) (from : Supply)
        → IsProgram program
        → IsState program.signature at.spot.state
        → at.turns ≤ settings.limit
        → (turns : List Turn) × (ending : Ending) × (to : Supply)
        × Run program settings at from turns ending to }
{
    offers_are_there();
    steps_lead_to_states();
    edits_are_steps();
    drawn_places_are_within();
}

/// Runs go on from where they are: what a question says begins some run, and so does what a turn
/// says.
pub fn runs_go_on()
    ensures questions { (program : Parts) (settings : Settings) (at : Position) (from : Supply)
        (question : Question) (to : Supply)
        → IsProgram program
        → IsState program.signature at.spot.state
        → IsQuestion program settings at from question to
        → BeginsSome (IsRunOf program settings at) from (question_events program question) }
    ensures turns { (program : Parts) (settings : Settings) (at : Position) (from : Supply)
        (turn : Turn)
        → IsProgram program
        → IsState program.signature at.spot.state
        → IsTurn program settings at from turn
        → BeginsSome (IsRunOf program settings at) from (turn_events program turn) }
{
    offers_are_there();
    steps_lead_to_states();
    edits_are_steps();
    drawn_places_are_within();
}

/// Whatever is typed, there is a dialogue: so what is said of every dialogue of a program is said of
/// some.
pub fn dialogues_are_there()
    ensures { (program : Parts) (settings : Settings) (come : List ℕ)
        → IsProgram program
        → (turns : List Turn) × (ending : Ending) × (events : List Event) × (rest : List ℕ)
        × Dialogue program settings come turns ending events rest }
{
    runs_are_there();
}

/// What is written of a dialogue is a transcript, if it is not too long: its log holds what was
/// done, is legal, and has as many steps as turns were done. So a check accepts what play wrote.
pub fn dialogues_have_logs()
    ensures { (program : Parts) (settings : Settings) (come : List ℕ) (turns : List Turn)
        (ending : Ending) (events : List Event) (rest : List ℕ)
        → IsProgram program
        → IsHeight settings.height
        → Dialogue program settings come turns ending events rest
        → length (written_bytes events) ≤ MOST_LOG
        → (log : Log)
        × HasLog program (written_bytes events) log
        × HoldsDeeds program settings.height (deeds_of turns) ending.word ending.state log
        × IsLegal program log
        × (length log.steps ≡ length turns) }
{
    turns_are_deeds();
    lines_are_read_as_written();
    deeds_have_legal_logs();
}
