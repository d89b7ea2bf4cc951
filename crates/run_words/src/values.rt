//! What the texts of values say.

ghost use Rattle.std.specs.Prelude.{◌≡◌};
ghost use Rattle.run_words.specs.Values.{form_in, format_in, is_colour_rule, is_format, is_of_kind, is_video_word, mode_in, sampling_in};

use crate::argument::Kind;
use crate::job::{FrameFormat, Mode};
use crate::report_words::ReportForm;
use ass_script::video_colours_named;
use value_texts::{aspect_in, content_in, letters_in, number_within, rate_in, size_in, storage_in};
use y4m_text::Sampling;

/// The mode that a text is.
pub fn mode_in(text: &str) -> Option<Mode>
    ensures { result ≡ mode_in text.now }
{
    if text == "live" {
        Some(Mode::Live)
    } else if text == "settled" {
        Some(Mode::Settled)
    } else {
        None
    }
}

/// The format that a text is.
pub fn format_in(text: &str) -> Option<FrameFormat>
    ensures { result ≡ format_in text.now }
{
    if text == "ppm" {
        Some(FrameFormat::Ppm)
    } else if text == "pam" {
        Some(FrameFormat::Pam)
    } else if text == "rgba" {
        Some(FrameFormat::Rgba)
    } else {
        None
    }
}

/// The form of a report that a text is.
pub fn form_in(text: &str) -> Option<ReportForm>
    ensures { result ≡ form_in text.now }
{
    if text == "text" {
        Some(ReportForm::Text)
    } else if text == "json" {
        Some(ReportForm::Json)
    } else if text == "none" {
        Some(ReportForm::Silent)
    } else {
        None
    }
}

/// Whether a text is the format of a video.
pub fn is_video_word(text: &str) -> bool
    ensures { result ≡ is_video_word text.now }
{
    text == "y4m"
}

/// Whether a text is a format.
fn is_format(text: &str) -> bool
    ensures { result ≡ is_format text.now }
{
    is_video_word(text) || format_in(text).is_some()
}

/// Whether a text tells the colours of a video.
fn is_colour_rule(text: &str) -> bool
    ensures { result ≡ is_colour_rule text.now }
{
    text == "script" || video_colours_named(text).is_some()
}

/// The sampling that a text is.
pub fn sampling_in(text: &str) -> Option<Sampling>
    ensures { result ≡ sampling_in text.now }
{
    if text == "420" {
        Some(Sampling::Yuv420)
    } else if text == "444" {
        Some(Sampling::Yuv444)
    } else {
        None
    }
}

/// Whether a text is of its rule.
pub fn is_of_kind(kind: Kind, text: &str) -> bool
    ensures { result ≡ is_of_kind kind text.now }
{
    match kind {
        Kind::Number(least, most) => number_within(text, least, most).is_some(),
        Kind::FrameSize => size_in(text).is_some(),
        Kind::VideoSize => storage_in(text).is_some(),
        Kind::PixelShape => aspect_in(text).is_some(),
        Kind::PictureRect => content_in(text).is_some(),
        Kind::LettersRule => letters_in(text).is_some(),
        Kind::PlayMode => mode_in(text).is_some(),
        Kind::PictureFormat => is_format(text),
        Kind::ColourRule => is_colour_rule(text),
        Kind::ChromaSampling => sampling_in(text).is_some(),
        Kind::FramesInSeconds => rate_in(text).is_some(),
        Kind::WrittenForm => form_in(text).is_some(),
        Kind::Alone | Kind::FileName => true,
    }
}
