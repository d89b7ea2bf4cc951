//! For which video a script's colours are.

ghost use Rattle.std.specs.Prelude.{◌≡◌};
ghost use Rattle.ass_script.specs.Matrices.{full_matrix_named, limited_matrix_named, matrix_of, video_colours_named};

use crate::words::same_name;
use ass_num::text_blanks::trimmed;

/// The standard by which the red, green and blue of a video become luma and chroma.
#[derive(Clone, Copy, Debug, PartialEq, Eq, Hash)]
pub enum ColourMatrix {
    /// ITU-R BT.601.
    Bt601,
    /// ITU-R BT.709.
    Bt709,
    /// SMPTE 240M.
    Smpte240m,
    /// FCC, 47 CFR 73.682.
    Fcc,
}

/// Which numbers luma and chroma are.
#[derive(Clone, Copy, Debug, PartialEq, Eq, Hash)]
pub enum ColourRange {
    /// Luma from 16 to 235, and chroma from 16 to 240.
    Limited,
    /// From 0 to 255.
    Full,
}

/// What the numbers of a video mean.
#[derive(Clone, Copy, Debug, PartialEq, Eq, Hash)]
pub struct VideoColours {
    pub matrix: ColourMatrix,
    pub range: ColourRange,
}

/// What `YCbCr Matrix` says (Aegisub, "Script properties"; libass, `ASS_YCbCrMatrix`).
#[derive(Clone, Copy, Debug, PartialEq, Eq, Hash)]
pub enum ScriptMatrix {
    /// The line is missing, or names nothing known.
    Unsaid,
    /// `None`: the colours are those that are shown, whatever the video.
    Unconverted,
    /// The colours are for a video of this kind.
    Video(VideoColours),
}

/// The matrix of a limited range that a name means.
#[tactic(auto, unfolding(crate::specs::Matrices::limited_matrix_named))]
fn limited_matrix_named(name: &str) -> Option<ColourMatrix>
    ensures { result ≡ limited_matrix_named name.now }
{
    if same_name(name, "TV.601") {
        return Some(ColourMatrix::Bt601);
    }
    if same_name(name, "TV.709") {
        return Some(ColourMatrix::Bt709);
    }
    if same_name(name, "TV.240M") {
        return Some(ColourMatrix::Smpte240m);
    }
    if same_name(name, "TV.FCC") {
        return Some(ColourMatrix::Fcc);
    }
    None
}

/// The matrix of a full range that a name means.
#[tactic(auto, unfolding(crate::specs::Matrices::full_matrix_named))]
fn full_matrix_named(name: &str) -> Option<ColourMatrix>
    ensures { result ≡ full_matrix_named name.now }
{
    if same_name(name, "PC.601") {
        return Some(ColourMatrix::Bt601);
    }
    if same_name(name, "PC.709") {
        return Some(ColourMatrix::Bt709);
    }
    if same_name(name, "PC.240M") {
        return Some(ColourMatrix::Smpte240m);
    }
    if same_name(name, "PC.FCC") {
        return Some(ColourMatrix::Fcc);
    }
    None
}

/// The colours of a video that a name means: `TV.` for the limited range or `PC.` for the full one, and `601`, `709`, `240M` or
/// `FCC`, without regard to ASCII case.
#[tactic(auto, unfolding(crate::specs::Matrices::video_colours_named))]
pub fn video_colours_named(name: &str) -> Option<VideoColours>
    ensures { result ≡ video_colours_named name.now }
{
    if let Some(matrix) = limited_matrix_named(name) {
        return Some(VideoColours {
            matrix,
            range: ColourRange::Limited,
        });
    }
    match full_matrix_named(name) {
        Some(matrix) => Some(VideoColours {
            matrix,
            range: ColourRange::Full,
        }),
        None => None,
    }
}

/// What the value of `YCbCr Matrix` says.
#[tactic(auto, unfolding(crate::specs::Matrices::matrix_of))]
pub fn matrix_in(value: &str) -> ScriptMatrix
    ensures { result ≡ matrix_of value.now }
{
    let name = trimmed(value);
    if same_name(name, "None") {
        return ScriptMatrix::Unconverted;
    }
    match video_colours_named(name) {
        Some(colours) => ScriptMatrix::Video(colours),
        None => ScriptMatrix::Unsaid,
    }
}
