//! Laws of tables. A law is a function that does nothing, whose contract is the law.
ghost use Rattle.std.specs.Prelude.{◌≡◌, ◌↔◌, List, None};
ghost use Rattle.vc_labels.specs.declared.row.Row.{Row};
ghost use Rattle.vc_labels.specs.Fault.{table_fault};
ghost use Rattle.vc_labels.specs.Lawful.{IsLawful};

/// Rows have no fault exactly where they rise, adjoin and name groups of a switch's links.
#[tactic(auto, using(crate::proofs::Tables::faultless_are_lawful))]
pub fn lawful_rows_have_no_fault()
    ensures { (rows : List Row) → table_fault rows ≡ None ↔ IsLawful rows }
{}
