//! Worked examples of the rules, proved of the definitions that the contracts cite.
#![tactic(auto)]

ghost use Rattle.examples.specs.Table.{Table};
ghost use Rattle.examples.specs.Places.{Places};

/// Every example of the table holds.
pub fn hold()
    ensures { Table }
{}

/// That decimals with as many places as a workbook writes are read, and longer ones are not.
pub fn hold_places()
    ensures { Places }
{}
