ghost use Rattle.std.specs.Prelude.{◌≡◌, ◌≢◌, ℕ, List, [], ◌∷◌, map, string_bytes, Some, MatchOption};
ghost use Rattle.cep_words.specs.declared.options.Options.{Options};
ghost use Rattle.cep_words.specs.declared.request.Task.{Task};
ghost use Rattle.cep_words.specs.declared.request.Task.TheVariants.{Again};
ghost use Rattle.cep_words.specs.Words.{play_word, task_word, options_of, AskFor, HaveNoForm, Play, Examine, Dead, World};
ghost use Rattle.cep_words.specs.Requests.{request_of};

use crate::number::number_within;
use crate::options::Options;
use crate::run_option::seed_in;
use cep_base::limits::MOST_WORLD;

/// What is done with a second file and the program.
#[derive(Clone, Copy)]
pub enum Task {
    /// A transcript is checked against the program.
    Check,
    /// A transcript is checked, and if it is legal renewed in version 2.
    Renew,
    /// A transcript is checked, and if it is legal its graph is listed: on which earlier steps each
    /// step rests.
    Cause,
    /// A transcript is checked, and if it is legal its steps are done again in the order that a seed
    /// gives, or the default seed.
    Again { seed: Option<u64> },
    /// The rules of the program are weighed by a file of claims.
    Weigh,
}

/// What words ask of the program.
#[derive(Clone, Copy)]
pub enum Request<'a> {
    /// To play the program in a file, with options: by one player, or by several in rounds where
    /// the options say how many.
    Play {
        file: &'a String,
        options: Options,
    },
    /// To examine a second file against the program in the first.
    Examine {
        task: Task,
        file: &'a String,
        second: &'a String,
    },
    /// To report the rules of the program in a file that can never apply.
    Dead {
        file: &'a String,
    },
    /// To run the generated world of so many rooms, from 1 to 5,000, with options. Nobody plays in
    /// it, so the options say no number of players.
    World {
        rooms: u32,
        options: Options,
    },
}

impl Request<'_> {
    /// What these words ask for. `None` if and only if they are malformed.
    pub fn of(words: &[String]) -> Option<Request<'_>>
        ensures { MatchOption result
            (HaveNoForm (map string_bytes words.now))
            (λ request. AskFor (map string_bytes words.now) (request_of request)) }
    {
        match to_play(words) {
            Some(request) => Some(request),
            None => match to_examine(words) {
                Some(request) => Some(request),
                None => match to_do_again(words) {
                    Some(request) => Some(request),
                    None => match to_report_dead(words) {
                        Some(request) => Some(request),
                        None => to_run(words),
                    },
                },
            },
        }
    }
}

// The request to play a program, by one player or by several in rounds, if these words ask for that.
fn to_play(words: &[String]) -> Option<Request<'_>>
    ensures { MatchOption result
        ((file : List ℕ) (options : Options)
        → ¬ (AskFor (map string_bytes words.now) (Play file options)))
        (λ request. AskFor (map string_bytes words.now) (request_of request)) }
{
    match words {
        [word, file, options @ ..] => {
            let options = Options::of(options)?;
            if word.as_str() == play_word(options.players) {
                Some(Request::Play { file, options })
            } else {
                None
            }
        }
        _ => None,
    }
}

// The word that asks for a program to be played by so many.
fn play_word(players: Option<u32>) -> &'static str
    ensures { result.now ≡ play_word players }
{
    match players {
        None => "play",
        Some(_) => "rounds",
    }
}

// The request to examine a second file, if these words ask for that with no option.
fn to_examine(words: &[String]) -> Option<Request<'_>>
    ensures { MatchOption result
        ((task : Task) (file second : List ℕ)
        → map string_bytes words.now ≢ task_word task ∷ file ∷ second ∷ [])
        (λ request. AskFor (map string_bytes words.now) (request_of request)) }
{
    match words {
        [word, file, second] => {
            let task = task_of(word.as_bytes())?;
            Some(Request::Examine { task, file, second })
        }
        _ => None,
    }
}

// The request to do the steps of a transcript again by a seed, if these words ask for that.
fn to_do_again(words: &[String]) -> Option<Request<'_>>
    ensures { MatchOption result
        ((seed : ℕ) (file second : List ℕ)
        → ¬ (AskFor (map string_bytes words.now) (Examine (Again (Some seed)) file second)))
        (λ request. AskFor (map string_bytes words.now) (request_of request)) }
{
    match words {
        [again, file, second, seed] if again.as_str() == "again" => {
            let seed = seed_in(seed.as_bytes())?;
            let task = Task::Again { seed: Some(seed) };
            Some(Request::Examine { task, file, second })
        }
        _ => None,
    }
}

// The request to report dead rules, if these words ask for that.
fn to_report_dead(words: &[String]) -> Option<Request<'_>>
    ensures { MatchOption result
        ((file : List ℕ) → ¬ (AskFor (map string_bytes words.now) (Dead file)))
        (λ request. AskFor (map string_bytes words.now) (request_of request)) }
{
    match words {
        [dead, file] if dead.as_str() == "dead" => Some(Request::Dead { file }),
        _ => None,
    }
}

// The task that a word names, with no option.
fn task_of(word: &[u8]) -> Option<Task>
    ensures { MatchOption result
        ((task : Task) → word.now ≢ task_word task)
        (λ task. (word.now ≡ task_word task) × (options_of task ≡ [])) }
{
    match word {
        b"check" => Some(Task::Check),
        b"renew" => Some(Task::Renew),
        b"cause" => Some(Task::Cause),
        b"again" => Some(Task::Again { seed: None }),
        b"weigh" => Some(Task::Weigh),
        _ => None,
    }
}

// The request to run a world, if these words ask for that.
fn to_run(words: &[String]) -> Option<Request<'_>>
    ensures { MatchOption result
        ((rooms : ℕ) (options : Options)
        → ¬ (AskFor (map string_bytes words.now) (World rooms options)))
        (λ request. AskFor (map string_bytes words.now) (request_of request)) }
{
    match words {
        [world, rooms, options @ ..] if world.as_str() == "world" => {
            let rooms = number_within(rooms.as_bytes(), 1, MOST_WORLD)?;
            let options = Options::of(options)?;
            match options.players {
                None => Some(Request::World { rooms, options }),
                Some(_) => None,
            }
        }
        _ => None,
    }
}
