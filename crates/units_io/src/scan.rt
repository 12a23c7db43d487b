//! The length of the prefix of a text for which a test holds.
ghost use Rattle.std.specs.Prelude.{◌≡◌, ◌≤◌, ◌<◌, ℕ, Bool, length};
ghost use Rattle.std.specs.List as lists;

/// Returns the number of bytes before the first one that fails the test, or the length of `bytes` if none fails.
pub fn prefix_len<F: Fn(u8) -> bool>(bytes: &[u8], test: F) -> usize
    requires { F.IsAlwaysCallable test }
    ensures is { (passes : ℕ → Bool)
        → ((b : ℕ) (answer : Bool) → b < 256 → F.post test b answer → answer ≡ passes b)
        → result ≡ lists.prefix_len passes bytes.now }
    ensures within { result ≤ length bytes.now }
{
    let mut len = 0;
    while len < bytes.len() && test(bytes[len]) {
        len += 1;
    }
    len
}
