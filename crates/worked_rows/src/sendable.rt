//! What may go to other threads.
use java_props::Pairs;
use nx_base::{Marked, Member, Name, PolicyName, Row};

fn goes<T: Send>() {}

/// The records and the pairs may go to other threads: this compiles only where they may.
pub(crate) fn all_go() {
    goes::<Row>();
    goes::<Member>();
    goes::<Marked>();
    goes::<Name>();
    goes::<PolicyName>();
    goes::<Pairs>();
}
