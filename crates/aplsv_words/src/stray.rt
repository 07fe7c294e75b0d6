ghost use Rattle.std.specs.Prelude.{◌≡◌, option_map, string_bytes};
ghost use Rattle.std.specs.List.{list_any};
ghost use Rattle.clap.specs.Lexer.{strip_byte};
ghost use Rattle.aplsv_words.specs.Stray.{is_stray, lacks_name};

/// Whether one of the words begins with a hyphen and does not go on as a name behind two.
pub(crate) fn has_stray(args: &[String]) -> bool
    ensures { result ≡ list_any (λ arg. is_stray (string_bytes arg)) args.now }
{
    args.iter().any(|arg| is_stray(arg.as_str()))
}

// What follows a hyphen at the front.
fn strip_hyphen(word: &str) -> Option<&str>
    ensures { option_map (λ rest. rest.now) result ≡ strip_byte 45 word.now }
{
    word.strip_prefix('-')
}

// The word is `-`, `--`, or goes on behind one hyphen with something else.
fn is_stray(word: &str) -> bool
    ensures { result ≡ is_stray word.now }
{
    match strip_hyphen(word) {
        Some(rest) => lacks_name(rest),
        None => false,
    }
}

// No name follows a second hyphen.
fn lacks_name(rest: &str) -> bool
    ensures { result ≡ lacks_name rest.now }
{
    match strip_hyphen(rest) {
        Some(name) => name.is_empty(),
        None => true,
    }
}
