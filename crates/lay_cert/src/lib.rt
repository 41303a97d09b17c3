//! The certificates of layouts: for each frame the accesses, a layout, its cost, what is claimed of it, and the log that shows the claim.
#![tactic(auto)]

mod certificate;
mod fault;
mod fields;
mod frames;
mod laws;
mod lines;
mod reader;
mod reading;
mod replaying;
mod writing;

pub use certificate::{CertFrame, Certificate, Claim, FrameParts};
pub use fault::CertFault;
pub use laws::{read_certificates_are_written, written_certificates_are_read, yes_means_least};
pub use reader::CertReader;
pub use reading::read_cert;
pub use replaying::{Replay, Verdict};
pub use writing::write_cert;
