//! Fonts as a script holds them.

use ass_num::Items;

/// A font as a script holds it: the name of its file, and the file's bytes.
#[derive(Debug, Drop)]
pub struct ScriptFont {
    pub name: Items<u8>,
    pub bytes: Items<u8>,
}
