//! Where grapheme clusters end, by the rules of UAX #29 (Unicode Text Segmentation).

ghost use Rattle.std.specs.Prelude.{◌≡◌, ◌++◌, length, OnOk, IfOk};
ghost use Rattle.std.specs.Str.{chars};
ghost use Rattle.text_layout.specs.Clusters.{cluster_ends, flags_of, text_ends};
ghost use Rattle.text_layout.specs.Kinds.{chars_of};

use crate::kinds::char_of;
use ass_num::Mem;
use override_tags::Shown;
use std::alloc::Global;
use unicode_segmentation::UnicodeSegmentation;

/// Adds for each character of a text whether it is the last of its extended grapheme cluster.
fn add_text(text: &str, ends: &mut Vec<bool>) -> Mem<()>
    ensures { OnOk result (ends.new.items ≡ ends.old.items ++ text_ends (chars text.now)) }
{
    for cluster in text.graphemes(true) {
        add_cluster(cluster, ends)?;
    }
    Ok(())
}

/// Adds the characters of one cluster, of which the last ends it.
fn add_cluster(cluster: &str, ends: &mut Vec<bool>) -> Mem<()>
    ensures { OnOk result (ends.new.items ≡ ends.old.items ++ flags_of (length (chars cluster.now))) }
{
    let count = cluster.chars().count();
    for k in 0..count {
        ends.push(k + 1 == count)?;
    }
    Ok(())
}

/// For each item whether it is the last character of its cluster, in the text between hard breaks and drawings; `true` for these.
pub fn cluster_ends(alloc: Global, items: &[Shown], wrap: u8) -> Mem<Vec<bool>>
    ensures { IfOk result (λ ends. ends.items ≡ cluster_ends (chars_of wrap items.now)) }
{
    let mut ends = Vec::with_capacity(alloc, items.len())?;
    let mut text = String::new(alloc);
    for shown in items {
        match char_of(shown, wrap) {
            Some(c) => text.push(c)?,
            None => {
                add_text(text.as_str(), &mut ends)?;
                text.clear();
                ends.push(true)?;
            }
        }
    }
    add_text(text.as_str(), &mut ends)?;
    Ok(ends)
}
