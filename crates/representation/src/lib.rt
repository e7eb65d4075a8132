// Memory and registers as a configuration of the abstract machine.
#![tactic(auto)]

// Nothing yet.
pub fn stands() {}
