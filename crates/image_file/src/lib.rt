//! Writes and reads images.
#![tactic(auto)]

mod error;
mod header;
mod image;
mod laws;
mod names;
mod reading;
#[cfg(test)]
mod tests;
mod writing;

pub use error::{FieldName, ImageError};
pub use image::Image;
pub use laws::{one_image, read_written};
pub use reading::read_image;
pub use writing::write_image;
