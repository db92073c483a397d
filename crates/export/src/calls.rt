// What the calls for C share: the suite of a number, and the telling of a refusal.
ghost use Rattle.std.specs.Prelude.{◌≡◌, length, Some};
ghost use Rattle.export.specs.Calls.{answer_of, numbers_in, suite_of};

use refusal::Refusal;
use suites::Named;

// The suite of a number, as a bundle's header has it; C names a suite by its number.
pub fn suite_by(number: u32) -> Option<Named>
    ensures { result ≡ suite_of number }
{
    Named::try_from(number).ok()
}

// Writes number, layer and place of a refusal, or zeros, and gives the status: numbers and a buffer, since C has no Result.
pub fn tell(outcome: Result<(), Refusal>, told: &mut [u64]) -> u32
    requires { length told.old ≡ 3 }
    ensures status { result ≡ answer_of (Some outcome) }
    ensures numbers { told.new ≡ numbers_in 3 (Some outcome) }
{
    match outcome {
        Ok(()) => {
            told.copy_from_slice(&[0, 0, 0]);
            0
        }
        Err(refusal) => {
            let (number, layer, place) = refusal.numbers();
            told.copy_from_slice(&[u64::from(number), u64::from(layer), place as u64]);
            1
        }
    }
}
