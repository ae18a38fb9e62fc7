//! Room in a vector, so that a later push can't want memory.

ghost use Rattle.std.specs.Prelude.{◌≡◌, ℕ, ◌+◌, ◌∷◌, [], ◌++◌, OnOk, IsOk};
ghost use Rattle.venue_types.specs.Room.{HasRoom};

use crate::OutOfMemory;

/// Makes room for further items, where there is none yet. Without memory the vector keeps its items and its room.
pub fn reserve<T>(items: &mut Vec<T>, more: usize) -> Result<(), OutOfMemory>
    ensures room { OnOk result (HasRoom items.new more) }
    ensures kept { (n : ℕ) → HasRoom items.old n → HasRoom items.new n }
    ensures same { items.new.items ≡ items.old.items }
    ensures idle { HasRoom items.old more → IsOk result }
{
    items.reserve(more)?;
    Ok(())
}

/// Adds an item at the end, where there is room for it.
pub fn push_reserved<T: Drop>(items: &mut Vec<T>, item: T)
    requires { HasRoom items.old 1 }
    ensures items { items.new.items ≡ items.old.items ++ item ∷ [] }
    ensures room { (n : ℕ) → HasRoom items.old (n + 1) → HasRoom items.new n }
{
    let _pushed = items.push(item);
}
