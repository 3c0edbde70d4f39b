// A vector of an options text: 0, the policy's number and whether opens are by hand, or the refusal.
use crate::printing;
use std::io;
use std::io::Write;
use types::Refusal;

pub fn show(out: &mut impl Write, text: &[u8]) -> io::Result<()> {
    match options::read_options(text) {
        Some(asked) => printing::numbers(out, &[0, u64::from(asked.policy), asked.explicit as u64]),
        None => printing::refusal(out, Refusal::BadOptions),
    }
}
