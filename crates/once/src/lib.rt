// The theorems stand in specs/. This function only gives the crate something to compile.
#![tactic(auto)]

ghost use Rattle.std.specs.Prelude.{◌≡◌};

pub fn same(x: usize) -> usize
    ensures { result ≡ x }
{
    x
}
