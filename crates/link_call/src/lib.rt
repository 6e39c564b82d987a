//! Calls of other programs by a link: one call as an attempt under a policy, and the fields of a message that are passed on.
#![tactic(auto)]

mod asking;
mod calling;
mod giving;
mod miss;
mod passing;

pub use asking::Asking;
pub use calling::call_link;
pub use giving::given;
pub use miss::Miss;
pub use passing::{pass_on, passed_fields};
