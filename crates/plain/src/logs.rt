//! The logs of a history, and who wrote them.
ghost use Rattle.std.specs.Prelude.{◌≡◌, ◌++◌, length, map, take, if◌then◌else◌, IfOk, OnOk};
ghost use Rattle.model.specs.{Entries.change_of, Histories.entry_in, Histories.log_of, Histories.author_in, Histories.authors_of, Items.item_of, Items.history_of};

use crate::front::Front;
use model::entry::Entry;
use model::item::{Author, Item};
use std::alloc::{AllocError, Global};

/// Adds at the end a copy of the entry that the item adds to the base shard's log, if any.
fn push_entry(
    alloc: Global,
    entries: &mut Vec<Entry>,
    base: usize,
    item: &Item,
) -> Result<(), AllocError>
    ensures { OnOk result (map change_of entries.new.items ≡ map change_of entries.old.items
        ++ entry_in base (item_of item.now)) }
{
    if let Item::Write(write) = item {
        if write.base == base {
            entries.push(write.entry.try_clone(alloc)?)?;
        }
    }
    Ok(())
}

/// Copies of the entries of the writes to the base shard, in order.
fn entries_of(alloc: Global, items: &[Item], base: usize) -> Result<Vec<Entry>, AllocError>
    ensures { IfOk result (λ entries. map change_of entries.items
        ≡ log_of base (history_of items.now)) }
{
    let mut entries = Vec::new(alloc);
    for item in items {
        push_entry(alloc, &mut entries, base, item)?;
    }
    Ok(entries)
}

/// The log of the base shard: the entries of the writes to it, in order. Errors: memory only. Cost:
/// a look at each item, and a copy of each entry.
pub fn log_of(alloc: Global, items: &[Item], base: usize) -> Result<Front, AllocError>
    ensures { IfOk result (λ log. log ≡ log_of base (history_of items.now)) }
{
    let entries = entries_of(alloc, items, base)?;
    Ok(Front::new(entries))
}

/// The first entries of that log, at most this many. Errors: memory only. Cost: that of the log.
pub fn front_of(
    alloc: Global,
    items: &[Item],
    base: usize,
    length: u64,
) -> Result<Front, AllocError>
    ensures { IfOk result (λ front. front ≡ take length (log_of base (history_of items.now))) }
{
    let mut entries = entries_of(alloc, items, base)?;
    entries.truncate(length as usize);
    Ok(Front::new(entries))
}

/// Whether the item is a write to the base shard.
fn is_written(item: &Item, base: usize) -> bool
    ensures { length (entry_in base (item_of item.now)) ≡ (if result then 1 else 0) }
{
    match item {
        Item::Write(write) => write.base == base,
        Item::Read(_) | Item::Fence(_) => false,
    }
}

/// How long the log of the base shard is. Takes no memory. Cost: a look at each item.
pub fn log_length(items: &[Item], base: usize) -> usize
    ensures { result ≡ length (log_of base (history_of items.now)) }
{
    let mut count = 0;
    for item in items {
        if is_written(item, base) {
            count += 1;
        }
    }
    count
}

/// Adds at the end the author that the item adds to the base shard's log, if any.
fn push_author(authors: &mut Vec<Author>, base: usize, item: &Item) -> Result<(), AllocError>
    ensures { OnOk result (authors.new.items ≡ authors.old.items
        ++ author_in base (item_of item.now)) }
{
    if let Item::Write(write) = item {
        if write.base == base {
            let author = Author {
                session: write.session,
                number: write.number,
            };
            authors.push(author)?;
        }
    }
    Ok(())
}

/// The author of each entry of the base shard's log, in order. Errors: memory only. Cost: a look at
/// each item.
pub fn authors_of(alloc: Global, items: &[Item], base: usize) -> Result<Vec<Author>, AllocError>
    ensures { IfOk result (λ authors. authors.items ≡ authors_of base (history_of items.now)) }
{
    let mut authors = Vec::new(alloc);
    for item in items {
        push_author(&mut authors, base, item)?;
    }
    Ok(authors)
}
