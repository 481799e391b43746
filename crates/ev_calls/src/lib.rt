//! Call records in memory: what their words are, and what they say of a site's call.
#![tactic(auto)]

mod laws;
mod record;

pub use laws::list_laws;
pub use record::{RecordView, call_view};
