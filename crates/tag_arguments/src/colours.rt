//! Arguments that are colours and alphas.

ghost use Rattle.ass_num.specs.Numerals.{IsColour, IsAlpha};
ghost use Rattle.tag_arguments.specs.Numbers.{ReadsOptional};

/// An argument that is empty, or begins with a colour.
pub fn read_colour_argument(argument: &str) -> Option<Option<u32>>
    ensures { ReadsOptional IsColour argument.now result }
{
    if argument.is_empty() {
        return Some(None);
    }
    Some(Some(ass_num::read_colour(argument.as_bytes())?))
}

/// An argument that is empty, or begins with an alpha.
pub fn read_alpha_argument(argument: &str) -> Option<Option<u8>>
    ensures { ReadsOptional IsAlpha argument.now result }
{
    if argument.is_empty() {
        return Some(None);
    }
    Some(Some(ass_num::read_alpha(argument.as_bytes())?))
}
