//! What the definitions promise. Each function here has an empty body: its contract is the law.
ghost use Rattle.std.specs.Prelude.{◌≡◌, ◌<◌, ℕ, List, None};
ghost use Rattle.nx_base.specs.declared.row.Row.{Row};
ghost use Rattle.asset_keeper.specs.Table.{Table, rows_of};
ghost use Rattle.asset_keeper.specs.Pages.{AreRead, joined};

/// Pages of n rows that are read one after another, each after the last key of the one before it,
/// up to the first that has fewer, are the rows of the table, each once and in order, whatever
/// changes in between at keys up to that last one.
pub fn pages_are_the_table()
    ensures { (n : ℕ) (t : Table) (pages : List (List Row)) → 0 < n → AreRead n None t pages → joined pages ≡ rows_of t }
{}
