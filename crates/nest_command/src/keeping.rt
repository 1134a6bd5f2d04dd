// What is kept of a run for its files.
ghost use Rattle.std.specs.Prelude.{◌≡◌, Some, true};

/// Returns `rows` if they are to be kept. Else drops them.
pub fn keep_if<T: Drop>(keeps: bool, rows: T) -> Option<T>
    ensures { keeps ≡ true → result ≡ Some rows }
{
    if keeps { Some(rows) } else { None }
}
