//! What is told beside what is wanted, compared here alone: an assertion is proved anew in each function that has one.

use std::process::Abort;

pub fn same_text(rt: &impl Abort, told: &str, wanted: &str) {
    assert_eq!(rt; told, wanted);
}

pub fn same_bytes(rt: &impl Abort, told: &[u8], wanted: &str) {
    assert_eq!(rt; told, wanted.as_bytes(), "{wanted}");
}
