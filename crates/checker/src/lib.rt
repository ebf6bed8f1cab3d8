// The checker: whether a tree that is lent is right for a table.
#![tactic(auto)]

ghost use Rattle.std.specs.Prelude.{◌≡◌};
ghost use Rattle.words.specs.Outcome.{said};
ghost use Rattle.table.specs.Check.{read_table};
ghost use Rattle.checker.specs.Checker.{check_of};

use words::Refusal;

mod nodes;

// Whether a tree is right for a table, node by node; then every word of the width walks to what it selects. It is not right (14), or the
// table has a fault (1 to 4).
pub fn check(table: &[u32], tree: &[u32]) -> Result<(), Refusal>
    ensures { said result ≡ check_of (read_table table.now) tree.now }
{
    let table = table::read(table)?;
    if nodes::accepts(&table, tree) {
        return Ok(());
    }
    Err(Refusal::BadTree)
}
