ghost use Rattle.std.specs.Prelude.{◌≡◌, not, position};
ghost use Rattle.std.specs.Result.{result_err};
ghost use Rattle.places.specs.Put.{clause_fault};
ghost use Rattle.formulas.specs.Clause.{usable};

use crate::fault::PlaceFault;

const MOST_LITERALS: usize = 16;

// The greatest number of a variable.
pub const LAST_VARIABLE: u32 = 65_535;

// Whether any place takes the clause, as far as that does not depend on its space.
pub fn check_clause(clause: &[i32]) -> Result<(), PlaceFault>
    ensures { result_err result ≡ clause_fault clause.now }
{
    if clause.is_empty() || clause.len() > MOST_LITERALS {
        return Err(PlaceFault::ClauseLength);
    }
    match first_unusable(clause) {
        Some(index) => Err(PlaceFault::Literal { index }),
        None => Ok(()),
    }
}

// Where the first literal stands that names no variable.
fn first_unusable(clause: &[i32]) -> Option<usize>
    ensures { result ≡ position (λ l. not (usable l)) clause.now }
{
    clause.iter().position(|literal| !is_usable(*literal))
}

// Whether a literal names a variable.
fn is_usable(literal: i32) -> bool
    ensures { result ≡ usable literal }
{
    (1..=LAST_VARIABLE).contains(&literal.unsigned_abs())
}
