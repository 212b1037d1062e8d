//! What the tests share.

use rd_answer::onlooker::Onlooker;
use rd_reach::answer::{SearchCounts, Watch};
use std::fmt::Debug;
use std::process::Abort;

/// What was found is what was wanted. (In a function of its own: what `assert_eq!` prints costs a
/// proof some seconds wherever it stands.)
pub fn assert_same<T: PartialEq + Debug + Copy>(rt: &impl Abort, found: T, wanted: T) {
    assert_eq!(rt; found, wanted);
}

/// Looks on and says nothing.
#[derive(Drop)]
pub struct Quiet;

impl Watch for Quiet {
    fn sees(&mut self, _counts: &SearchCounts) {}
}

impl Onlooker for Quiet {
    fn narrows(&mut self, _surprises: u8) {}
}
