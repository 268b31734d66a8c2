//! What can be copied whole.
ghost use Rattle.std.specs.Prelude.{◌≡◌, IfOk};

use containers::Items;
use plan_base::NoMemory;
use std::alloc::Global;

/// Trees that are copied whole.
pub trait TryClone {
    /// The same tree.
    fn copy(&self, alloc: Global) -> Result<Self, NoMemory>
        ensures { IfOk result (λ t. t ≡ self.now) };
}

/// The same trees.
pub fn copy_items<T: TryClone + Drop>(alloc: Global, items: &[T]) -> Result<Items<T>, NoMemory>
    ensures { IfOk result (λ copies. copies ≡ items.now) }
{
    let mut done = Items::new(alloc);
    for item in items {
        done.add(item.copy(alloc)?)?;
    }
    Ok(done)
}

/// The same tree, where there is one.
pub fn copy_option<T: TryClone + Drop>(
    alloc: Global,
    item: &Option<T>,
) -> Result<Option<T>, NoMemory>
    ensures { IfOk result (λ copied. copied ≡ item.now) }
{
    match item {
        None => Ok(None),
        Some(item) => Ok(Some(item.copy(alloc)?)),
    }
}
