// The records of a certificate (01, "The certificate") and what their bytes mean: definitions (specs/) and laws (proofs/Laws/).
// A certificate's shape and its first record; what the tables store; and how a passed certificate is read.
#![tactic(auto)]

pub mod kinds;
pub mod passed;
pub mod record;
pub mod stored;
pub mod tables;

pub use kinds::{Kind, ReplyKind};
pub use record::Span;
pub use tables::Shape;

// The bytes before the contents of a record.
pub const HEAD: usize = 6;
