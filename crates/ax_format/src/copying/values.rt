ghost use Rattle.std.specs.Prelude.{◌≡◌, IfOk};

use super::push_copy;
use crate::record::{Block, Record, Records};
use crate::value::{Entries, Entry, Lists, Value, Values};
use std::alloc::{AllocError, Global};

impl Value {
    /// A copy, which equals the original.
    pub fn copy(&self, alloc: Global) -> Result<Value, AllocError>
        ensures { IfOk result (λ made. made ≡ self.now) }
    {
        copy_value(alloc, self)
    }
}

#[cycle(copy)]
fn copy_value(alloc: Global, value: &Value) -> Result<Value, AllocError>
    ensures { IfOk result (λ made. made ≡ value.now) }
{
    match value {
        Value::Number(number) => Ok(Value::Number(*number)),
        Value::Group(values) => copy_values(alloc, values).map(Value::Group),
        Value::Extended(lists) => copy_lists(alloc, lists).map(Value::Extended),
        Value::Repeat(values) => copy_values(alloc, values).map(Value::Repeat),
        Value::Octets(octets) => octets.copy(alloc).map(Value::Octets),
        Value::Compound(entries) => copy_entries(alloc, entries).map(Value::Compound),
    }
}

#[cycle(copy)]
fn copy_values(alloc: Global, values: &Values) -> Result<Values, AllocError>
    ensures { IfOk result (λ made. made ≡ values.now) }
{
    let mut made = Values::new(alloc);
    for value in values.as_slice() {
        push_copy(&mut made, copy_value(alloc, value))?;
    }
    Ok(made)
}

#[cycle(copy)]
fn copy_lists(alloc: Global, lists: &Lists) -> Result<Lists, AllocError>
    ensures { IfOk result (λ made. made ≡ lists.now) }
{
    let mut made = Lists::new(alloc);
    for values in lists.as_slice() {
        push_copy(&mut made, copy_values(alloc, values))?;
    }
    Ok(made)
}

#[cycle(copy)]
fn copy_entries(alloc: Global, entries: &Entries) -> Result<Entries, AllocError>
    ensures { IfOk result (λ made. made ≡ entries.now) }
{
    let mut made = Entries::new(alloc);
    for entry in entries.as_slice() {
        made.push(Entry {
            slot: entry.slot,
            value: copy_value(alloc, &entry.value)?,
        })?;
    }
    Ok(made)
}

impl Record {
    /// A copy, which equals the original.
    pub fn copy(&self, alloc: Global) -> Result<Record, AllocError>
        ensures { IfOk result (λ made. made ≡ self.now) }
    {
        Ok(Record {
            entries: copy_entries(alloc, &self.entries)?,
        })
    }
}

fn copy_records(alloc: Global, records: &Records) -> Result<Records, AllocError>
    ensures { IfOk result (λ made. made ≡ records.now) }
{
    let mut made = Records::new(alloc);
    for one in records.as_slice() {
        push_copy(&mut made, one.copy(alloc))?;
    }
    Ok(made)
}

impl Block {
    /// A copy, which equals the original.
    pub fn copy(&self, alloc: Global) -> Result<Block, AllocError>
        ensures { IfOk result (λ made. made ≡ self.now) }
    {
        match self {
            Block::Read { category, records } => Ok(Block::Read {
                category: *category,
                records: copy_records(alloc, records)?,
            }),
            Block::Opaque { category, octets } => Ok(Block::Opaque {
                category: *category,
                octets: octets.copy(alloc)?,
            }),
        }
    }
}
