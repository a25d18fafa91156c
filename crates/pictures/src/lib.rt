//! What pictures are made of: scales, curves, bands and texts, as SVG.
#![tactic(auto)]

mod bands;
mod ends;
mod labels;
mod markup;
mod moments;
mod pen;
mod scale;

pub use bands::{BAND, degree, draw_key, draw_part};
pub use ends::{LEFT, RIGHT, WIDTH};
pub use labels::{Label, add_first_part, add_label, add_last_part, draw_labels};
pub use markup::{
    add_attribute, add_escaped, add_escaped_character, add_length, add_pixels, add_point,
};
pub use moments::{Moments, Sign};
pub use pen::Pen;
pub use scale::{Scale, Size, line_marks, page_marks};
