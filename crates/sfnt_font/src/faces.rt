//! Which files are read, and where their faces are.

ghost use Rattle.std.specs.Prelude.{◌≡◌, ◌<◌, ◌≤◌, ◌^◌};
ghost use Rattle.font_bytes.specs.Bytes.{u32_at};
ghost use Rattle.sfnt_font.specs.Faces.{is_compressed, is_face_kind, is_sfnt_kind, max_faces, bad_face, collection_count, face_count, face_place};

use crate::cause::{SfntCause, SfntRefusal};
use font_bytes::u32_at;

/// 00 01 00 00
const VERSION_1: u32 = 65_536;

/// "true"
const TRUE: u32 = 1_953_658_213;

/// "OTTO"
const OPEN: u32 = 1_330_926_671;

/// "ttcf"
const COLLECTION: u32 = 1_953_784_678;

/// "wOFF"
const WOFF: u32 = 2_001_684_038;

/// "wOF2"
const WOFF_2: u32 = 2_001_684_018;

/// The most faces of a file.
const MAX_FACES: u32 = 64;

fn is_compressed(kind: u32) -> bool
    ensures { result ≡ is_compressed kind }
{
    kind == WOFF || kind == WOFF_2
}

/// Whether a face begins so: with TrueType outlines or PostScript ones.
pub fn is_face_kind(kind: u32) -> bool
    ensures { result ≡ is_face_kind kind }
{
    kind == VERSION_1 || kind == TRUE || kind == OPEN
}

/// Whether a file is read as a TrueType font, by its first four bytes. A file that isn't is none.
pub fn is_sfnt(bytes: &[u8]) -> bool
    ensures { result ≡ is_sfnt_kind (u32_at bytes.now 0) }
{
    let kind = u32_at(bytes, 0);
    is_face_kind(kind) || kind == COLLECTION || is_compressed(kind)
}

/// The first of n faces, whose places stand from `at` on, that doesn't have 12 bytes in the file.
fn bad_face(bytes: &[u8], at: usize, n: u32) -> Option<usize>
    requires at { at < 2 ^ 30 }
    requires n { n ≤ max_faces }
    ensures { result ≡ bad_face bytes.now at n }
{
    for k in 0..n {
        let place = at + 4 * k as usize;
        if bytes.len() < u32_at(bytes, place) as usize + 12 {
            return Some(place);
        }
    }
    None
}

/// How many faces a collection has that says it has n.
fn collection_count(bytes: &[u8], n: u32) -> Result<u32, SfntRefusal>
    ensures { result ≡ collection_count bytes.now n }
{
    if n > MAX_FACES {
        return Err(SfntRefusal::TooLarge(MAX_FACES as usize));
    }
    if n == 0 {
        return Err(SfntRefusal::BadFont(8, SfntCause::BadPlace));
    }
    if bytes.len() < 12 + 4 * n as usize {
        return Err(SfntRefusal::BadFont(bytes.len(), SfntCause::Ends));
    }
    match bad_face(bytes, 12, n) {
        Some(at) => Err(SfntRefusal::BadFont(at, SfntCause::BadPlace)),
        None => Ok(n),
    }
}

/// How many faces a file has.
pub fn face_count(bytes: &[u8]) -> Result<u32, SfntRefusal>
    ensures { result ≡ face_count bytes.now }
{
    let kind = u32_at(bytes, 0);
    if is_compressed(kind) {
        return Err(SfntRefusal::BadFont(0, SfntCause::Compressed));
    }
    if bytes.len() < 12 {
        return Err(SfntRefusal::BadFont(bytes.len(), SfntCause::Ends));
    }
    if kind != COLLECTION {
        return Ok(1);
    }
    collection_count(bytes, u32_at(bytes, 8))
}

/// Where a face begins.
pub fn face_place(bytes: &[u8], face: u32) -> usize
    ensures value { result ≡ face_place bytes.now face }
    ensures place { result < 2 ^ 32 }
{
    if u32_at(bytes, 0) == COLLECTION {
        return u32_at(bytes, 12 + 4 * face as usize) as usize;
    }
    0
}
