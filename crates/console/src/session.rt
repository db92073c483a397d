// What the commands of the scheme work with, and what they do with a secret key.
ghost use Rattle.std.specs.Prelude.{◌≡◌, length, replicate};

use params::Set;
use suites::Named;

// The program's handle, a suite and a set.
#[derive(Clone, Copy)]
pub(crate) struct Session<'a> {
    pub rt: &'a HostRuntime,
    pub suite: Named,
    pub set: Set,
}

// Hands out a secret key to `f`. It is zeros when `f` is done, whatever that answers.
pub fn wipe_after<T, F: FnOnce(&[u8]) -> T>(secret_key: &mut [u8], f: F) -> T
    requires { F.IsAlwaysCallable f }
    ensures { secret_key.new ≡ replicate (length secret_key.old) 0 }
{
    let answer = f(secret_key);
    secret_key.fill(0);
    answer
}
