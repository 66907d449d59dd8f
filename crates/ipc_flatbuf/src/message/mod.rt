//! Encapsulated messages and the `Message` table of their metadata.

pub mod laws;
mod reading;
mod types;
mod writing;

pub use reading::{next_message, read_root, version_of};
pub use types::{Message, MessageKind, MessageRoot, MetadataVersion};
pub use writing::{write_message, write_root};
