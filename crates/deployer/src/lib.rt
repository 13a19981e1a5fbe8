//! How a request comes to a context, and how the context leaves it: the steps of one service, each
//! round a call or two of the book.
#![tactic(auto)]

mod closing;
mod hosting;
mod layering;
mod returning;

pub use closing::{finish, park, wanted};
pub use hosting::{deploy_host, take_host};
pub use layering::keep_layer;
pub use returning::give;
