//! Fonts from the bytes of their files.

ghost use Rattle.std.specs.Prelude.{◌≡◌, ◌<◌, ◌≤◌, length, All, IfOk};
ghost use Rattle.ass_num.specs.Limits.{max_file_bytes};
ghost use Rattle.sfnt_font.specs.Answers.{Answers, WantsBehind};
ghost use Rattle.sfnt_font.specs.Faces.{face_count, max_faces};
ghost use Rattle.sfnt_font.specs.Directory.{IsDirectory};
ghost use Rattle.sfnt_font.specs.Fonts.{directory_map, face_map, font_of, sfnt_of, sfnts_of};
ghost use Rattle.sfnt_font.specs.Ranges.{IsSfntFont};

use crate::cause::SfntRefusal;
use crate::directory::{Directory, directory_at};
use crate::faces::{face_count, face_place};
use crate::file_bytes::FileBytes;
use crate::font::SfntFont;
use crate::maps::{CharacterMap, map_of};
use crate::names::font_names;
use crate::numbers::sfnt_numbers;
use crate::segments::segments_of;
use crate::tables::tables_of;
use ass_num::Items;
use std::alloc::Global;

/// The fonts of all faces of a file, in their order, or the first fault and its byte. It looks at no glyph. The faces
/// share the bytes. Memory is taken once the first face has a map, and not before.
pub fn read_faces(alloc: Global, bytes: Items<u8>) -> Result<Items<SfntFont>, SfntRefusal>
    requires short { length bytes ≤ max_file_bytes }
    ensures answer { Answers (sfnts_of bytes) result }
    ensures memory { WantsBehind (face_map bytes 0) result }
    ensures fonts { IfOk result (All IsSfntFont) }
    ensures some { IfOk result (λ fonts. 0 < length fonts) }
    ensures few { IfOk result (λ fonts. length fonts ≤ max_faces) }
{
    let count = face_count(bytes.as_slice())?;
    face_map(bytes.as_slice(), 0)?;
    let file = FileBytes::new(alloc, bytes)?;
    let mut fonts = Items::with_capacity(alloc, count as usize)?;
    for face in 0..count {
        fonts.push(read_sfnt(alloc, &file, face)?)?;
    }
    Ok(fonts)
}

/// The map of a face of a file, or the first fault before memory is taken.
fn face_map(bytes: &[u8], face: u32) -> Result<CharacterMap, SfntRefusal>
    requires short { length bytes.now ≤ max_file_bytes }
    ensures { result ≡ face_map bytes.now face }
{
    face_count(bytes)?;
    let directory = directory_at(bytes, face_place(bytes, face))?;
    let tables = tables_of(bytes, directory)?;
    sfnt_numbers(bytes, directory, &tables)?;
    map_of(bytes, tables.cmap)
}

/// The font of a face of a file, or the first fault and its byte. It looks at no glyph. `face_count` tells how many
/// faces there are. Memory is taken for the segments of the map and for the names, and for nothing before.
pub fn read_sfnt(alloc: Global, file: &FileBytes, face: u32) -> Result<SfntFont, SfntRefusal>
    requires short { length file.now ≤ max_file_bytes }
    requires face { IfOk (face_count file.now) (λ n. face < n) }
    ensures answer { Answers (sfnt_of file.now face) result }
    ensures memory { WantsBehind (face_map file.now face) result }
    ensures font { IfOk result IsSfntFont }
{
    let bytes = file.as_slice();
    face_count(bytes)?;
    let directory = directory_at(bytes, face_place(bytes, face))?;
    font_of(alloc, file, directory)
}

/// The font whose directory this is.
fn font_of(alloc: Global, file: &FileBytes, directory: Directory) -> Result<SfntFont, SfntRefusal>
    requires short { length file.now ≤ max_file_bytes }
    requires directory { IsDirectory directory }
    ensures answer { Answers (font_of file.now directory) result }
    ensures memory { WantsBehind (directory_map file.now directory) result }
    ensures font { IfOk result IsSfntFont }
{
    let bytes = file.as_slice();
    let tables = tables_of(bytes, directory)?;
    let numbers = sfnt_numbers(bytes, directory, &tables)?;
    let character_map = map_of(bytes, tables.cmap)?;
    let segments = segments_of(alloc, bytes, character_map)?;
    let names = font_names(alloc, bytes, directory)?;
    Ok(SfntFont {
        bytes: file.share()?,
        tables,
        numbers,
        character_map,
        segments,
        names,
    })
}
