//! The forms that the words behind the program's name may have.
ghost use Rattle.std.specs.Prelude.{◌≡◌, IfSome, Some, drop, is_some, map, slice_get, string_bytes};
ghost use Rattle.script.specs.Arguments.{is_race, is_replay, is_run};

/// The names of the recipe and the script, where the words are `run RECIPE SCRIPT`.
pub fn run_of(words: &[String]) -> Option<(&str, &str)>
    ensures form { is_some result ≡ is_run (map string_bytes words.now) }
    ensures recipe { IfSome result (λ f. slice_get (map string_bytes words.now) 1 ≡ Some f.0.now) }
    ensures script { IfSome result (λ f. slice_get (map string_bytes words.now) 2 ≡ Some f.1.now) }
{
    match words {
        [run, recipe, script] if run.as_str() == "run" => {
            Some((recipe.as_str(), script.as_str()))
        }
        _ => None,
    }
}

/// The names of the recipe and the scripts, where the words are `race RECIPE SCRIPT..`.
pub fn race_of(words: &[String]) -> Option<(&str, &[String])>
    ensures form { is_some result ≡ is_race (map string_bytes words.now) }
    ensures recipe { IfSome result (λ f. slice_get (map string_bytes words.now) 1 ≡ Some f.0.now) }
    ensures scripts { IfSome result (λ f. f.1.now ≡ drop 2 words.now) }
{
    match words {
        [race, recipe, _, ..] if race.as_str() == "race" => Some((recipe.as_str(), &words[2..])),
        _ => None,
    }
}

/// The names of the recipe and the schedule, where the words are `replay RECIPE SCHEDULE`.
pub fn replay_of(words: &[String]) -> Option<(&str, &str)>
    ensures form { is_some result ≡ is_replay (map string_bytes words.now) }
    ensures recipe { IfSome result (λ f. slice_get (map string_bytes words.now) 1 ≡ Some f.0.now) }
    ensures schedule { IfSome result (λ f. slice_get (map string_bytes words.now) 2
        ≡ Some f.1.now) }
{
    match words {
        [replay, recipe, schedule] if replay.as_str() == "replay" => {
            Some((recipe.as_str(), schedule.as_str()))
        }
        _ => None,
    }
}
