//! The words that ask for a batch. `clap` doesn't see them, so they aren't a line within a batch.
ghost use Rattle.std.specs.Prelude.{◌≡◌, ◌∷◌, List, MatchOption, map, string_bytes};
ghost use Rattle.uuspool.specs.BatchCalls.{IsBatchCall};

/// The path of the settings if the words after the program's name are `batch` or `-c FILE batch`,
/// and otherwise `None`.
pub fn batch_settings(words: &[String]) -> Option<&str>
    ensures { MatchOption result (¬ ((file : _) × IsBatchCall (map string_bytes words.now) file)) (λ file. IsBatchCall (map string_bytes words.now) file.now) }
{
    match words {
        [word] if word.as_str() == "batch" => Some("uuspool.toml"),
        [option, file, word] if option.as_str() == "-c" && word.as_str() == "batch" => {
            Some(file.as_str())
        }
        _ => None,
    }
}
