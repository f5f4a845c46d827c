// A question: a prenex quantified Boolean formula over and-gates, and the loader that reads one from bytes.
#![tactic(auto)]

mod beginning;
mod frame;
mod judging;
mod loading;
mod parts;
mod prefix;
mod question;
mod records;

pub use frame::Frame;
pub use loading::{Rejected, load};
pub use parts::always_well_formed;
pub use prefix::{Block, Quantifier};
pub use question::Question;
pub use records::Refusal;
