// A mount whose report arrives in pieces, held to the whole mount: the first fault in byte order and the rows finished before it, as definitions over the
// list of zones, and the theorems. Nothing runs here.
#![tactic(auto)]

pub fn nothing() {}
