ghost use Rattle.std.specs.Prelude.{◌≡◌, [], ◌∷◌, ◌++◌, ◌<◌, ◌↔◌, length, slice_get, IsSome, IfOk, OnOk, OnErr};
ghost use Rattle.std.specs.Option.{option_copied};
ghost use Rattle.ax_lists.specs.Sizes.{list_bound};

use std::alloc::{AllocError, Global};
use std::marker::Model;

/// A list of fewer than 2^32 members, which contracts see as that list. It grows at its end alone and keeps
/// its allocator.
///
/// Two sequences are equal where their members are: the room after the members and the place in memory are
/// no part of the list.
pub struct Sequence<T> {
    members: Vec<T>,
}

impl<T: Drop> Drop for Sequence<T> {
    fn drop(self) {
        let Sequence { members: _members } = self;
    }
}

impl<T> Model for Sequence<T> {
    ghost use Rattle.std.specs.Prelude.{List, length, ◌<◌};
    ghost use Rattle.std.specs.Coded.{coded_list};
    ghost use Rattle.ax_lists.specs.Sizes.{list_bound};

    ghost Value = { List T };

    ghost coded = { coded_list T.code };

    ghost view = { λ s. s.members.items };

    ghost invariant = { λ s. length s.members.items < list_bound };
}

impl<T> Sequence<T> {
    /// The empty list. Takes no memory.
    pub fn new(alloc: Global) -> Self
        ensures { result ≡ [] }
    {
        Sequence {
            members: Vec::new(alloc),
        }
    }

    /// The empty list, with the room that so many members take.
    pub fn with_capacity(alloc: Global, members: u32) -> Result<Self, AllocError>
        ensures { IfOk result (λ made. made ≡ []) }
    {
        let members = Vec::with_capacity(alloc, members as usize)?;
        Ok(Sequence { members })
    }

    /// The number of members.
    pub fn count(&self) -> u32
        ensures { result ≡ length self.now }
    {
        self.members.len() as u32
    }

    /// The member at that place, counted from 0. None comes exactly past the end.
    pub fn get(&self, index: u32) -> Option<&T>
        ensures value { option_copied result ≡ slice_get self.now index }
        ensures within { IsSome result ↔ index < length self.now }
    {
        self.members.get(index as usize)
    }

    /// The members in order.
    pub fn as_slice(&self) -> &[T]
        ensures members { result.now ≡ self.now }
        ensures bound { length self.now < list_bound }
    {
        self.members.as_slice()
    }
}

impl<T: Copy> Sequence<T> {
    /// A list of these members. Takes their room once.
    pub fn of(alloc: Global, members: &[T]) -> Result<Self, AllocError>
        requires { length members.now < list_bound }
        ensures { IfOk result (λ made. made ≡ members.now) }
    {
        let members = Vec::from_slice(alloc, members)?;
        Ok(Sequence { members })
    }

    /// A list of the same members. Takes their room once.
    pub fn copy(&self, alloc: Global) -> Result<Self, AllocError>
        ensures { IfOk result (λ made. made ≡ self.now) }
    {
        Sequence::of(alloc, self.as_slice())
    }
}

impl<T: Drop> Sequence<T> {
    /// Appends one member. Want of memory leaves the list as it was.
    pub fn push(&mut self, one: T) -> Result<(), AllocError>
        requires room { length self.old < 4294967295 }
        ensures ok { OnOk result (self.new ≡ self.old ++ one ∷ []) }
        ensures err { OnErr result (self.new ≡ self.old) }
    {
        self.members.push(one)?;
        Ok(())
    }
}
