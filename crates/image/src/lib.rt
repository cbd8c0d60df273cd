//! The strict reader of images: bytes `43 4D`, then as numbers the sign of the layout, the object
//! count, the root count, the roots, and the objects as header and body. It is written once for any
//! layout and knows nothing of heaps.
#![tactic(auto)]

mod refusals;
mod source;
mod strict;

pub use refusals::{Fault, Refusal};
pub use source::Reader;
pub use strict::{Summary, Unwatched, Visitor, check, visit};
