//! What is drawn of a picture, in order.

use crate::composite_key::CompositeKey;
use crate::shared::Shared;
use ass_num::{Items, Rgba};

/// Where a draw may show. All numbers are pixels of the frame.
#[derive(Clone, Debug, PartialEq, Eq, Hash, Drop)]
pub enum Clip {
    /// Everywhere.
    Free,
    /// From `x1` and `y1` up to but not with `x2` and `y2`; `inverse`: anywhere else.
    Rect {
        x1: i32,
        y1: i32,
        x2: i32,
        y2: i32,
        inverse: bool,
    },
    /// By the mask of the key, whose 0 stands at `x` and `y`; `inverse`: by what it leaves. The draws of an event share the key.
    Drawn {
        key: Shared<CompositeKey>,
        x: i32,
        y: i32,
        inverse: bool,
    },
}

/// One mask on the frame.
#[derive(Clone, Debug, PartialEq, Eq, Hash, Drop)]
pub struct Draw {
    pub key: CompositeKey,
    /// The pixel of the frame at which the mask's 0 stands.
    pub x: i32,
    pub y: i32,
    /// The colour of the pixels left of `edge`.
    pub left: Rgba,
    /// The colour of those from `edge` on.
    pub right: Rgba,
    /// The column of the frame at which a sweep stands.
    pub edge: i32,
    pub clip: Clip,
}

/// All draws of a picture, the lowest first.
#[derive(Clone, Debug, PartialEq, Eq, Hash, Drop)]
pub struct Plan {
    pub draws: Items<Draw>,
}
