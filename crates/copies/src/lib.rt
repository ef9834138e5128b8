// copies: bytes from one place to another that has room for them. It knows nothing of messages.
#![tactic(auto)]

ghost use Rattle.std.specs.Prelude.{◌≡◌, ◌++◌, ◌≤◌, length, take, drop};

// How many were copied: the whole source, onto the target's first bytes; what stands behind them stays.
pub fn copy(source: &[u8], target: &mut [u8]) -> usize
    requires { length source.now ≤ length target.old }
    ensures value { result ≡ length source.now }
    ensures target_after { target.new ≡ take (length source.now) source.now ++ drop (length source.now) target.old }
{
    let count = source.len();
    target[..count].copy_from_slice(source);
    count
}
