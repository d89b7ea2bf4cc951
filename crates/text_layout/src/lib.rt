//! The layout of an event's text: matrices, grapheme clusters, paragraphs and their lines, and where lines and items lie in the block.
#![tactic(auto)]

mod anchors;
mod clusters;
mod extents;
mod fonts;
mod kinds;
mod laid;
mod laws;
mod layouts;
mod lines;
mod metrics;
mod scales;
mod setting;
mod spans;
mod typeset;

pub use anchors::{Margins, anchor, block_corner, frame_place, margins_of, wrapping_width};
pub use ass_num::{Matrix, Point, Size};
pub use clusters::cluster_ends;
pub use extents::{Extent, drawn_extent, item_extents};
pub use fonts::{needs_bold_step, state_fonts};
pub use kinds::char_of;
pub use laid::{Laid, Line, Placed};
pub use laws::{one_layout, stands_on_size};
pub use layouts::layout;
pub use metrics::{Metrics, TextSize, all_metrics};
pub use scales::{clip_matrix, drawing_matrix, framed, text_matrix};
pub use setting::Setting;
pub use spans::{Span, line_spans};
pub use typeset::{is_typeset, line_scales};
