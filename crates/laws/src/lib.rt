// Tests as values, and, in specs/, laws of tests and lists that speak of nothing of the index.
#![tactic(auto)]

ghost use Rattle.std.specs.Prelude.{◌≤◌, ◌≡◌, ◌&&◌, ◌||◌, cond};

// Both tests, as a value.
pub fn both(a: bool, b: bool) -> bool
    ensures { result ≡ (a && b) }
{
    a & b
}

// One of two tests or both, as a value.
pub fn either(a: bool, b: bool) -> bool
    ensures { result ≡ (a || b) }
{
    a | b
}

// 1 where a test passes, else 0.
pub fn one_if(a: bool) -> u32
    ensures exact { result ≡ cond a 1 0 }
    ensures small { result ≤ 1 }
{
    u32::from(a)
}
