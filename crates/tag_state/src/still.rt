//! Texts that show the same at every instant.

ghost use Rattle.std.specs.Prelude.{◌≡◌, true};
ghost use Rattle.std.specs.List.{list_all};
ghost use Rattle.override_tags.specs.declared.item.Item.{Item};
ghost use Rattle.tag_state.specs.Still as rule;

use override_tags::{Item, ItemKind, Tag};

/// Whether an item has nothing to do with the instant.
fn stays(kind: &ItemKind) -> bool
    ensures { result ≡ rule.stays kind.now }
{
    match kind {
        ItemKind::Tag(Tag::Move(_, _, _)) => false,
        ItemKind::Tag(Tag::Fad(_, _)) => false,
        ItemKind::Tag(Tag::Fade(_)) => false,
        ItemKind::Tag(Tag::Transform(_, _, _)) => false,
        _ => true,
    }
}

/// Whether no item of a text has to do with the instant.
fn items_stay(items: &[Item]) -> bool
    ensures { result ≡ list_all (λ (i : Item). rule.stays i.kind) items.now }
{
    items.iter().all(|item| stays(&item.kind))
}

/// Whether none of the items of a text moves, fades or transforms. An event with such a text shows the same at every instant.
pub fn is_still(items: &[Item]) -> bool
    ensures value { result ≡ list_all (λ (i : Item). rule.stays i.kind) items.now }
    ensures same { result ≡ true → rule.IsStill items.now }
{
    items_stay(items)
}
