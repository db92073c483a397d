// The scheme: what signing and verification are, that they fit, and what both of them ask of a suite.
#![tactic(auto)]

ghost use Rattle.std.specs.Prelude.{ℕ, List};
ghost use Rattle.params.specs.declared.Set.{Set};
ghost use Rattle.scheme.specs.Fits.{Fits};
ghost use Rattle.scheme.specs.Verifying.{verify_of, Verifies};

pub mod ask;
pub mod challenge;
pub mod commit;
pub mod instance;
pub mod labels;
pub mod round;
pub mod sizes;

use field::Field;
pub use instance::Instance;
pub use round::Round;
use suite::Suite;

// What signing gives, verification accepts; and what verification accepts is said in the scheme's words, for every set, message, key and
// signature, over every field and suite. Nothing is computed: the contract is the theorem.
pub fn scheme_fits<F: Field, S: Suite>(suite: &S) -> u8
    ensures fits { (set : Set) (message : List ℕ) (map list : ℕ) (key sig : List ℕ) → Fits F.Field.coding (S.Suite.meaning suite.now) set message map list key sig (verify_of F.Field.coding (S.Suite.meaning suite.now) set message map list key sig) }
    ensures verdict { (set : Set) (message : List ℕ) (map list : ℕ) (key sig : List ℕ) → Verifies F.Field.coding (S.Suite.meaning suite.now) set message map list key sig (verify_of F.Field.coding (S.Suite.meaning suite.now) set message map list key sig) }
{
    0
}
