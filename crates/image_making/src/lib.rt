//! Making the files of a new image: its folder, the file of its one volume, and that volume's text, which counts from one
//! rename on.
#![tactic(auto)]

mod base;
mod laws;
mod making;
mod stages;

pub use base::Shape;
pub use laws::{
    a_made_image_can_be_opened, a_made_image_reads_as_zeros, a_made_image_survives_crashes,
    image_knowledge_survives_others,
};
pub use making::{ImageMaking, NewImage, Stage};
