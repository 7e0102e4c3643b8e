//! Lists that only grow, and whose copies share what they hold.
ghost use Rattle.std.specs.Prelude.{◌≡◌, [], ◌∷◌, ◌++◌, IfOk};
ghost use Rattle.model.specs.Blocks.{held_in, values_of};

use std::alloc::{AllocError, Global};
use std::marker::Model;
use std::rc::Rc;

/// How many items a block holds.
const BLOCK: usize = 64;

/// A list of items, in blocks. Copies share the items, and take no memory.
pub struct Blocks<T: Drop> {
    full: Rc<Vec<Rc<Vec<Rc<T>>>>>,
    last: Rc<Vec<Rc<T>>>,
}

// What holds one drops it by this call, and need not know its parts.
impl<T: Drop> Drop for Blocks<T> {
    fn drop(self) {
        let Blocks { full: _, last: _ } = self;
    }
}

impl<T: Drop> Model for Blocks<T> {
    ghost use Rattle.std.specs.Prelude.{List};
    ghost use Rattle.model.specs.Blocks.{held_in};

    ghost Value = { List T };

    ghost view = { λ b. held_in b.full.value.items b.last.value.items };
}

impl<T: Drop> Blocks<T> {
    /// The list with no items. Errors: memory only.
    pub fn new(alloc: Global) -> Result<Blocks<T>, AllocError>
        ensures { IfOk result (λ b. b ≡ []) }
    {
        Ok(Blocks {
            full: Rc::new(alloc, Vec::new(alloc))?,
            last: Rc::new(alloc, Vec::new(alloc))?,
        })
    }

    /// The same list. It takes no memory.
    pub fn shared(&self) -> Result<Blocks<T>, AllocError>
        ensures { IfOk result (λ b. b ≡ self.now) }
    {
        Ok(Blocks {
            full: self.full.clone()?,
            last: self.last.clone()?,
        })
    }

    /// The items and one more. Errors: memory only. Cost: a place for at most 64 items, and where
    /// the last block is full a place for each block.
    pub fn with(&self, alloc: Global, item: T) -> Result<Blocks<T>, AllocError>
        ensures { IfOk result (λ b. b ≡ self.now ++ item ∷ []) }
    {
        let item = Rc::new(alloc, item)?;
        if self.last.len() < BLOCK {
            let last = with_one_more(alloc, &self.last, item)?;
            return Ok(Blocks {
                full: self.full.clone()?,
                last: Rc::new(alloc, last)?,
            });
        }
        let full = with_one_more(alloc, &self.full, self.last.clone()?)?;
        let mut last = Vec::new(alloc);
        last.push(item)?;
        Ok(Blocks {
            full: Rc::new(alloc, full)?,
            last: Rc::new(alloc, last)?,
        })
    }
}

// The items and one more. The items are shared.
fn with_one_more<T: Drop>(
    alloc: Global,
    items: &Vec<Rc<T>>,
    item: Rc<T>,
) -> Result<Vec<Rc<T>>, AllocError>
    ensures { IfOk result (λ v. values_of v.items ≡ values_of items.now.items ++ item.value ∷ []) }
{
    let mut more = Vec::with_capacity(alloc, items.len() + 1)?;
    for shared in items {
        more.push(shared.clone()?)?;
    }
    more.push(item)?;
    Ok(more)
}
