// A parameter set that is within the limits.
ghost use Rattle.std.specs.Prelude.{◌≡◌, true};
ghost use Rattle.params.specs.Sets.{good as is_good};

use crate::Set;

// What `Set::check` gives: whoever holds one need not ask again.
#[derive(Clone, Copy, PartialEq, Eq, Debug)]
pub struct GoodSet {
    pub set: Set,
    pub ghost good: { is_good set ≡ true },
}
