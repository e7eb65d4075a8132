// Every turn of the engine follows the abstract run.
#![tactic(auto)]

// Nothing yet.
pub fn stands() {}
