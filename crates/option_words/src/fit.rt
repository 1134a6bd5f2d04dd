// The words that can stand among options. What clap would take beyond them is refused here first.
ghost use Rattle.std.specs.Prelude.{◌≡◌, option_map, map, string_bytes};
ghost use Rattle.std.specs.List.{list_all};
ghost use Rattle.option_words.specs.Options.{is_value, name_and_value};
ghost use Rattle.option_words.specs.inside.Options.{is_fit};

// A value isn't empty and doesn't begin with a hyphen.
fn is_value(text: &str) -> bool
    ensures { result ≡ is_value text.now }
{
    match text.as_bytes() {
        [] => false,
        [first, ..] => *first != b'-',
    }
}

// What stands after the first `=`, if there is one.
fn value_after_equals(text: &str) -> Option<&str>
    ensures { option_map (λ s. s.now) result ≡ (name_and_value text.now).1 }
{
    match text.split_once('=') {
        Some((_, value)) => Some(value),
        None => None,
    }
}

// Whether the word can stand among options.
fn is_fit(word: &str) -> bool
    ensures { result ≡ is_fit word.now }
{
    if is_value(word) {
        return true;
    }
    match word.strip_prefix("--") {
        Some(rest) => {
            !rest.is_empty()
                && match value_after_equals(rest) {
                    Some(value) => is_value(value),
                    None => true,
                }
        }
        None => false,
    }
}

pub(crate) fn all_fit(words: &[String]) -> bool
    ensures { result ≡ list_all is_fit (map string_bytes words.now) }
{
    for word in words {
        if !is_fit(word.as_str()) {
            return false;
        }
    }
    true
}
