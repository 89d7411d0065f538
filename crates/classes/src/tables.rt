// Letter counts compared: 64 numbers of each word or tableau.
ghost use Rattle.std.specs.Prelude.{◌≡◌};
ghost use Rattle.classes.specs.Tables.{same_tables};

// Whether the counts of all 64 letters are equal.
#[tactic(auto, using(crate::specs::Tables::tables_equal))]
pub fn same_counts(first: &[u16; 64], second: &[u16; 64]) -> bool
    ensures { result ≡ same_tables first.now second.now }
{
    first == second
}
