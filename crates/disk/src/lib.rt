// The disk's rules, as definitions: what a zone does, what can befall it, and what a record or a report may show of it. No code is the
// disk: nothing runs here.
#![tactic(auto)]

pub fn nothing() {}
