// Worked cases, shown of the definitions that the contracts cite.
#![tactic(auto)]

ghost use Rattle.table.specs.Cases.{Cases};

// The cases hold.
pub fn cases_stand() -> u8
    ensures { Cases }
{
    0
}
