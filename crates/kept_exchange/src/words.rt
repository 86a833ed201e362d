//! The command lines that ask for a kept journal.
ghost use Rattle.std.specs.Prelude.{◌≡◌, ℕ, List, [], ◌∷◌, map, string_bytes, IfSome, IfNone};
ghost use Rattle.kept_exchange.specs.Words.{AskKeep, AskServe, AskHost};

// Returns the file that a subcommand and a file, and no more words, name; `None` exactly if the words are any others.
fn file_after<'a>(words: &'a [String], subcommand: &str) -> Option<&'a str>
    ensures file { IfSome result (λ file. map string_bytes words.now ≡ subcommand.now ∷ file.now ∷ []) }
    ensures none { IfNone result ((file : List ℕ) → ¬ (map string_bytes words.now ≡ subcommand.now ∷ file ∷ [])) }
{
    if words.len() != 2 {
        return None;
    }
    if words[0].as_str() == subcommand {
        return Some(words[1].as_str());
    }
    None
}

/// Returns the file that the words `keep FILE` name, which may be the empty word; `None` exactly if the words are any others.
pub fn kept_file(words: &[String]) -> Option<&str>
    ensures file { IfSome result (λ file. AskKeep (map string_bytes words.now) file.now) }
    ensures none { IfNone result ((file : List ℕ) → ¬ AskKeep (map string_bytes words.now) file) }
{
    file_after(words, "keep")
}

/// Returns the file that the words `serve FILE` name, which may be the empty word; `None` exactly if the words are any others.
pub fn served_file(words: &[String]) -> Option<&str>
    ensures file { IfSome result (λ file. AskServe (map string_bytes words.now) file.now) }
    ensures none { IfNone result ((file : List ℕ) → ¬ AskServe (map string_bytes words.now) file) }
{
    file_after(words, "serve")
}

/// Returns the file that the words `host FILE` name, which may be the empty word; `None` exactly if the words are any others.
pub fn hosted_file(words: &[String]) -> Option<&str>
    ensures file { IfSome result (λ file. AskHost (map string_bytes words.now) file.now) }
    ensures none { IfNone result ((file : List ℕ) → ¬ AskHost (map string_bytes words.now) file) }
{
    file_after(words, "host")
}
