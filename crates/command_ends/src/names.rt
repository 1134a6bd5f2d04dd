// Names of files, each of which is to be another.
ghost use Rattle.std.specs.Prelude.{◌≡◌, ◌||◌, map, option_map};
ghost use Rattle.std.specs.List.{list_any};
ghost use Rattle.std.specs.Str.{bytes_eq};
ghost use Rattle.command_ends.specs.Names.{first_taken};

// Whether one of the names is this one.
fn stands_in(names: &[&str], name: &str) -> bool
    ensures { result ≡ list_any (λ other. bytes_eq other.now name.now) names.now }
{
    names.iter().any(|other| *other == name)
}

// Whether one of these names is this one, or of those.
fn is_taken(taken: &[&str], before: &[&str], name: &str) -> bool
    ensures { result ≡ (list_any (λ other. bytes_eq other.now name.now) taken.now || list_any
        (λ other. bytes_eq other.now name.now) before.now) }
{
    stands_in(taken, name) || stands_in(before, name)
}

/// The first of these names that is taken, or that one of them before it has.
pub fn first_taken<'a>(taken: &[&str], names: &[&'a str]) -> Option<&'a str>
    ensures { option_map (λ name. name.now) result ≡ first_taken (map (λ name. name.now) taken.now)
        (map (λ name. name.now) names.now) }
{
    for (i, name) in names.iter().enumerate() {
        if is_taken(taken, &names[..i], name) {
            return Some(*name);
        }
    }
    None
}
