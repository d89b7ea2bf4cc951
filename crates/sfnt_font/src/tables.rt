//! The tables that a font needs.

ghost use Rattle.std.specs.Prelude.{◌≡◌, ◌≤◌, length, IfOk};
ghost use Rattle.ass_num.specs.Limits.{max_file_bytes};
ghost use Rattle.sfnt_font.specs.Directory.{name_of, least_size, needed_table, is_post_script, is_second_version, post_script_outlines, true_type_outlines, outlines_of, tables_of};
ghost use Rattle.sfnt_font.specs.Directory.{IsDirectory, IsTableIn, AreOutlinesIn, AreTablesIn};

use crate::cause::{SfntCause, SfntRefusal, Tag};
use crate::directory::{Directory, Table, table_named};
use cff_font::{CffFont, read_cff};

/// "CFF "
const CFF: u32 = 1_128_678_944;

/// "CFF2"
const CFF_2: u32 = 1_128_678_962;

/// What the glyphs of a font are drawn from.
#[derive(Clone, Copy, Debug)]
pub enum Outlines {
    /// The tables `loca` and `glyf`.
    TrueTypeOutlines(Table, Table),
    /// The table `CFF `.
    PostScriptOutlines(CffFont),
}

/// The tables that a font needs.
#[derive(Clone, Copy, Debug)]
pub struct Tables {
    pub head: Table,
    pub maxp: Table,
    pub hhea: Table,
    pub hmtx: Table,
    pub outlines: Outlines,
    pub cmap: Table,
}

/// The four letters of a name as a number.
fn name_of(tag: Tag) -> u32
    ensures { result ≡ name_of tag }
{
    match tag {
        Tag::Head => 1_751_474_532,
        Tag::Maxp => 1_835_104_368,
        Tag::Hhea => 1_751_672_161,
        Tag::Hmtx => 1_752_003_704,
        Tag::Loca => 1_819_239_265,
        Tag::Glyf => 1_735_162_214,
        Tag::Cmap => 1_668_112_752,
    }
}

/// The least bytes of a table.
fn least_size(tag: Tag) -> usize
    ensures { result ≡ least_size tag }
{
    match tag {
        Tag::Head => 54,
        Tag::Maxp => 6,
        Tag::Hhea => 36,
        Tag::Hmtx | Tag::Loca | Tag::Glyf => 0,
        Tag::Cmap => 4,
    }
}

fn needed_table(bytes: &[u8], directory: Directory, tag: Tag) -> Result<Table, SfntRefusal>
    requires { IsDirectory directory }
    ensures value { result ≡ needed_table bytes.now directory tag }
    ensures within { IfOk result (IsTableIn bytes.now) }
{
    match table_named(bytes, directory, name_of(tag)) {
        Some(table) if table.size < least_size(tag) => {
            Err(SfntRefusal::BadFont(table.place, SfntCause::ShortTable(tag)))
        }
        Some(table) => Ok(table),
        None => Err(SfntRefusal::BadFont(directory.end(), SfntCause::NoTable(tag))),
    }
}

/// Whether a face has PostScript outlines.
pub fn is_post_script(bytes: &[u8], directory: Directory) -> bool
    requires { IsDirectory directory }
    ensures { result ≡ is_post_script bytes.now directory }
{
    let glyphs = table_named(bytes, directory, name_of(Tag::Glyf));
    let cff = table_named(bytes, directory, CFF);
    glyphs.is_none() && cff.is_some()
}

/// Whether a face has PostScript outlines of the second version alone.
fn is_second_version(bytes: &[u8], directory: Directory) -> bool
    requires { IsDirectory directory }
    ensures { result ≡ is_second_version bytes.now directory }
{
    let glyphs = table_named(bytes, directory, name_of(Tag::Glyf));
    let cff = table_named(bytes, directory, CFF);
    let cff_2 = table_named(bytes, directory, CFF_2);
    glyphs.is_none() && cff.is_none() && cff_2.is_some()
}

fn post_script_outlines(bytes: &[u8], table: Table) -> Result<Outlines, SfntRefusal>
    requires table { IsTableIn bytes.now table }
    requires short { length bytes.now ≤ max_file_bytes }
    ensures value { result ≡ post_script_outlines bytes.now table }
    ensures within { IfOk result (AreOutlinesIn bytes.now) }
{
    match read_cff(bytes, table.span()) {
        Ok(font) => Ok(Outlines::PostScriptOutlines(font)),
        Err(refusal) => Err(SfntRefusal::BadFont(
            refusal.place,
            SfntCause::BadOutlines(refusal.cause),
        )),
    }
}

fn true_type_outlines(bytes: &[u8], directory: Directory) -> Result<Outlines, SfntRefusal>
    requires { IsDirectory directory }
    ensures value { result ≡ true_type_outlines bytes.now directory }
    ensures within { IfOk result (AreOutlinesIn bytes.now) }
{
    let loca = needed_table(bytes, directory, Tag::Loca)?;
    let glyf = needed_table(bytes, directory, Tag::Glyf)?;
    Ok(Outlines::TrueTypeOutlines(loca, glyf))
}

/// What the glyphs of a face are drawn from: `glyf`, or where there is none `CFF `.
fn outlines_of(bytes: &[u8], directory: Directory) -> Result<Outlines, SfntRefusal>
    requires directory { IsDirectory directory }
    requires short { length bytes.now ≤ max_file_bytes }
    ensures value { result ≡ outlines_of bytes.now directory }
    ensures within { IfOk result (AreOutlinesIn bytes.now) }
{
    if table_named(bytes, directory, name_of(Tag::Glyf)).is_some() {
        return true_type_outlines(bytes, directory);
    }
    match table_named(bytes, directory, CFF) {
        Some(table) => post_script_outlines(bytes, table),
        None => true_type_outlines(bytes, directory),
    }
}

/// The tables that are needed, or the first that is missing or too short.
pub fn tables_of(bytes: &[u8], directory: Directory) -> Result<Tables, SfntRefusal>
    requires directory { IsDirectory directory }
    requires short { length bytes.now ≤ max_file_bytes }
    ensures value { result ≡ tables_of bytes.now directory }
    ensures within { IfOk result (AreTablesIn bytes.now) }
{
    if is_second_version(bytes, directory) {
        return Err(SfntRefusal::BadFont(directory.end(), SfntCause::PostScript));
    }
    Ok(Tables {
        head: needed_table(bytes, directory, Tag::Head)?,
        maxp: needed_table(bytes, directory, Tag::Maxp)?,
        hhea: needed_table(bytes, directory, Tag::Hhea)?,
        hmtx: needed_table(bytes, directory, Tag::Hmtx)?,
        outlines: outlines_of(bytes, directory)?,
        cmap: needed_table(bytes, directory, Tag::Cmap)?,
    })
}
