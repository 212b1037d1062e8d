//! Two results as one.

ghost use Rattle.std.specs.Prelude.{◌≡◌, ◌⊎◌, Err, Ok, IfErr, IfOk, IsOk};

/// Both values, or the first error. (A function that makes two large values, each of which may
/// fail, would have to show at its exits that it drops every part of them; here a value is whatever
/// it is.)
pub fn both<A: Drop, B: Drop, E: Drop>(
    first: Result<A, E>,
    second: Result<B, E>,
) -> Result<(A, B), E>
    ensures ok { IfOk result (λ values. (first ≡ Ok values.0) × (second ≡ Ok values.1)) }
    ensures err { IfErr result (λ e. (first ≡ Err e) ⊎ (IsOk first × (second ≡ Err e))) }
{
    Ok((first?, second?))
}
