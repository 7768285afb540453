//! Runs the commands of a script over a device in memory, by `store::run`, and prints what comes of them.
#![tactic(auto)]

mod crash;
mod events;
mod fault;
mod handed;
mod image_files;
mod lines;
mod new_image;
mod play;
mod replies;
mod segment;
mod simulation;
mod stage;

pub use fault::SimFault;
pub use new_image::image;
pub use segment::Segment;
pub use simulation::simulate;
