// Which calls of an object in memory are to fail.
ghost use Rattle.std.specs.Prelude.{◌≡◌, ◌↔◌, ◌+◌, ◌-◌, ◌^◌, min, Contains, IsTrue};

/// Adds a call to `calls`, and returns whether it is one of `fails`. Calls are counted from 1.
pub fn is_failing(calls: &mut u64, fails: &[u64]) -> bool
    ensures counted { calls.new ≡ min (calls.old + 1) (2 ^ 64 - 1) }
    ensures failing { IsTrue result ↔ Contains fails.now calls.new }
{
    *calls = calls.saturating_add(1);
    fails.contains(calls)
}
