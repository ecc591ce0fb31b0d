ghost use Rattle.std.specs.Prelude.{◌≡◌, IfOk};

use super::push_copy;
use crate::content::{Content, Scale, TableText, TableTexts};
use std::alloc::{AllocError, Global};

impl Scale {
    /// A copy, which equals the original.
    pub fn copy(&self, alloc: Global) -> Result<Scale, AllocError>
        ensures { IfOk result (λ made. made ≡ self.now) }
    {
        Ok(Scale {
            sign: self.sign,
            num: self.num,
            den: self.den,
            unit: self.unit.copy(alloc)?,
        })
    }
}

impl TableText {
    /// A copy, which equals the original.
    pub fn copy(&self, alloc: Global) -> Result<TableText, AllocError>
        ensures { IfOk result (λ made. made ≡ self.now) }
    {
        Ok(TableText {
            number: self.number,
            text: self.text.copy(alloc)?,
        })
    }
}

fn copy_table(alloc: Global, table: &TableTexts) -> Result<TableTexts, AllocError>
    ensures { IfOk result (λ made. made ≡ table.now) }
{
    let mut made = TableTexts::new(alloc);
    for entry in table.as_slice() {
        push_copy(&mut made, entry.copy(alloc))?;
    }
    Ok(made)
}

impl Content {
    /// A copy, which equals the original.
    pub fn copy(&self, alloc: Global) -> Result<Content, AllocError>
        ensures { IfOk result (λ made. made ≡ self.now) }
    {
        match self {
            Content::Raw => Ok(Content::Raw),
            Content::Table(table) => copy_table(alloc, table).map(Content::Table),
            Content::Ascii => Ok(Content::Ascii),
            Content::Icao => Ok(Content::Icao),
            Content::Octal => Ok(Content::Octal),
            Content::Integer(sign) => Ok(Content::Integer(*sign)),
            Content::Quantity(scale) => scale.copy(alloc).map(Content::Quantity),
        }
    }
}
