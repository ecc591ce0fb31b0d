//! The entries of a table, by their numbers.
ghost use Rattle.std.specs.Prelude.{◌≡◌, ℕ, ◌==◌, find, option_map, IfOk, OnOk};
ghost use Rattle.std.specs.BTreeMap.{get};
ghost use Rattle.std.specs.Option.{option_copied};
ghost use Rattle.std.specs.Ordering.{nat_cmp};
ghost use Rattle.ax_held_kinds.specs.Entries.{alone, kept_or, said_by};
ghost use Rattle.ax_format.specs.declared.content.Content.TheVariants.{Raw};

use ax_format::{Content, TableText, TableTexts};
use std::alloc::{AllocError, Global};
use std::collections::BTreeMap;

/// The entries of a table, each of which is found by its number in the logarithm of how many there are. Of several with one
/// number the first one is.
#[derive(Drop)]
pub struct EntriesByNumber<'s> {
    entries: &'s TableTexts,
    /// For each number its first entry, as a table of that one.
    first: BTreeMap<u128, Content>,
    /// The content of the other numbers.
    nothing: Content,
    ghost says_nothing: { nothing ≡ Raw },
    ghost finds: { (n : ℕ) → get nat_cmp first n ≡ option_map alone (find (λ entry. entry.number == n) entries.now) },
}

/// A table of one entry.
fn table_of(alloc: Global, entry: &TableText) -> Result<Content, AllocError>
    ensures { IfOk result (λ made. made ≡ alone entry.now) }
{
    let mut entries = TableTexts::new(alloc);
    entries.push(entry.copy(alloc)?)?;
    Ok(Content::Table(entries))
}

/// Keeps an entry under its number, unless there is one.
fn keep_first(
    alloc: Global,
    first: &mut BTreeMap<u128, Content>,
    entry: &TableText,
) -> Result<(), AllocError>
    ensures { OnOk result ((n : ℕ) → get nat_cmp first.new n ≡ kept_or (get nat_cmp first.old n) entry.now n) }
{
    let number = u128::from(entry.number);
    if !first.contains_key(&number) {
        first.insert(number, table_of(alloc, entry)?)?;
    }
    Ok(())
}

impl<'s> EntriesByNumber<'s> {
    /// The entries of that table. Err is want of memory.
    pub fn of(alloc: Global, entries: &'s TableTexts) -> Result<EntriesByNumber<'s>, AllocError>
        ensures { IfOk result (λ made. made.entries.now ≡ entries.now) }
    {
        let mut first = BTreeMap::new(alloc);
        for entry in entries.as_slice() {
            keep_first(alloc, &mut first, entry)?;
        }
        Ok(EntriesByNumber {
            entries,
            first,
            nothing: Content::Raw,
        })
    }

    /// A table of the first entry of that number alone; where there is none, a content that says nothing.
    pub fn content(&self, number: u128) -> &Content
        ensures { result.now ≡ said_by (find (λ entry. entry.number == number) self.now.entries.now) }
    {
        match self.first.get(&number) {
            Some(content) => content,
            None => &self.nothing,
        }
    }
}
