// Counting test cases, and saying which one is not as it should be.
#![tactic(auto)]

ghost use Rattle.std.specs.Prelude.{◌≡◌, ◌+◌, ◌-◌, ◌^◌, ◌↔◌, min, All, IsTrue, IsFalse, IfOk};
ghost use Rattle.std.specs.Process.{exit_status};

use params::Set;
use std::io;
use std::process::ExitCode;

// What a call told: nothing, or the number, layer and place of what it refused. In numbers, so that these are tested too.
pub type Told = Result<(), (u8, u8, usize)>;

// How many cases were as they should be and how many not, and where that is printed.
#[derive(Drop)]
pub struct Tally<'a, R> {
    pub rt: &'a R,
    pub passed: usize,
    pub failed: usize,
    // how many were counted before this group
    pub before: usize,
}

impl<'a, R: Print> Tally<'a, R> {
    pub fn new(rt: &'a R) -> Self
        ensures passed { result.passed ≡ 0 }
        ensures failed { result.failed ≡ 0 }
        ensures before { result.before ≡ 0 }
    {
        Tally {
            rt,
            passed: 0,
            failed: 0,
            before: 0,
        }
    }

    pub fn count(&mut self, name: &str, good: bool) -> io::Result<()>
        ensures good_one { IsTrue good → self.new.passed ≡ min (self.old.passed + 1) (2 ^ 64 - 1) }
        ensures good_only { IsTrue good → self.new.failed ≡ self.old.failed }
        ensures bad_one { IsFalse good → self.new.failed ≡ min (self.old.failed + 1) (2 ^ 64 - 1) }
        ensures bad_only { IsFalse good → self.new.passed ≡ self.old.passed }
        ensures before { self.new.before ≡ self.old.before }
    {
        if good {
            self.passed = self.passed.saturating_add(1);
            Ok(())
        } else {
            self.failed = self.failed.saturating_add(1);
            println!(self.rt; "not as it should be: {name}")
        }
    }

    // The same, of a case that is run on several sets.
    pub fn count_at(&mut self, name: &str, set: Set, good: bool) -> io::Result<()>
        ensures good_one { IsTrue good → self.new.passed ≡ min (self.old.passed + 1) (2 ^ 64 - 1) }
        ensures good_only { IsTrue good → self.new.failed ≡ self.old.failed }
        ensures bad_one { IsFalse good → self.new.failed ≡ min (self.old.failed + 1) (2 ^ 64 - 1) }
        ensures bad_only { IsFalse good → self.new.passed ≡ self.old.passed }
        ensures before { self.new.before ≡ self.old.before }
    {
        self.count(name, good)?;
        if good {
            return Ok(());
        }
        let Set { n, m, r } = set;
        println!(self.rt; "  with the set ({n}, {m}, {r})")
    }

    // Ends a group of cases, and says how many they were.
    pub fn end_group(&mut self, group: &str) -> io::Result<()>
        ensures passed { self.new.passed ≡ self.old.passed }
        ensures failed { self.new.failed ≡ self.old.failed }
        ensures before { self.new.before ≡ min (self.old.passed + self.old.failed) (2 ^ 64 - 1) }
    {
        let all = self.passed.saturating_add(self.failed);
        let cases = all.saturating_sub(self.before);
        self.before = all;
        println!(self.rt; "{group}: {cases} cases")
    }

    // Says how all cases went; a program that counted one not as it should be ends with another status than 0.
    pub fn finish(&self) -> io::Result<ExitCode>
        ensures { IfOk result (λ code. (exit_status code ≡ 0) ↔ (self.now.failed ≡ 0)) }
    {
        let passed = self.passed;
        let failed = self.failed;
        println!(self.rt; "{passed} cases as they should be, {failed} not")?;
        if failed == 0 {
            Ok(ExitCode::SUCCESS)
        } else {
            Ok(ExitCode::FAILURE)
        }
    }
}

// Whether every byte is `b`.
pub fn all(bytes: &[u8], b: u8) -> bool
    ensures { IsTrue result ↔ All (λ x. x ≡ b) bytes.now }
{
    bytes.iter().all(|&x| x == b)
}
