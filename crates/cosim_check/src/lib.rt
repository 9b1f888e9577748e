//! Judges the commit stream of another core. A judge makes each step again on a core of its own, by the
//! answers that the record itself shows, and gives the longest prefix of the stream whose records are all
//! allowed. `specs/Records.antt` says which records are, and `specs/Verdicts.antt` defines the verdict on a
//! stream, however it is cut into pieces. Nothing here takes memory.
#![tactic(auto)]

mod fields;
mod judge;
mod laws;
mod line;
mod record;
mod same;
#[cfg(test)]
mod tests;
mod told;
mod verdict;

pub use judge::Judge;
pub use laws::{
    allowed_streams_pass, faults_are_found, fields_tell_all, prefix_is_greatest, refused_differs,
    verdict_means, verdict_stays,
};
pub use verdict::{Field, Verdict};
