// The magnitude of a signed number of 64 bits, and the laws of signed numbers (proofs/). Callers write the library's `x.unsigned_abs()`; the edit of
// must-fail/ stands on this function.
#![tactic(auto)]

ghost use Rattle.std.specs.Prelude.{◌≡◌, nat_abs};

// Rust's `x.unsigned_abs()`.
pub fn unsigned_abs(x: i64) -> u64
    ensures { result ≡ nat_abs x }
{
    x.unsigned_abs()
}
