//! What steps do to activity bits: to those of a bitmap, and, before they are applied, as the chunks that each of them changes over a bitmap that is lent.
#![tactic(auto)]

pub mod apply;
pub mod batch;
mod chunk;
pub mod marks;
pub mod overlay;
pub mod steps;

pub use apply::commit;
pub use batch::BitmapBatch;
pub use marks::Marks;
pub use overlay::ChunkOverlay;
pub use steps::{apply_bits, overlay_of};
