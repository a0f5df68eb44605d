// What the command reads, writes and says: the input read whole, the result printed or saved in a file that is replaced whole or left as it
// was, and messages on standard error with the exit status that goes with them. Nothing here knows what the octets mean.
#![tactic(auto)]

mod closing;
pub mod input;
mod known;
mod links;
mod messages;
pub mod output;
mod paths;
mod place;
mod status;
mod system;

pub use messages::Voice;
pub use status::Stop;
pub use system::System;
