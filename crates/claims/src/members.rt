//! Actions by the labels of their owners and by their places in a list.
ghost use Rattle.std.specs.Prelude.{◌≡◌, ◌++◌, ◌∷◌, [], IfOk, OnOk, length, map};
ghost use Rattle.claims.specs.Members.{label_of, place_of};
ghost use Rattle.claims.specs.Sets.{IsSorting};

use actions::Words;
use plain::{Text, push_last};
use std::alloc::{AllocError, Global};
use std::marker::Model;

/// An action: the label of its owner, and its place in the list.
#[derive(PartialEq, Eq, PartialOrd, Ord, Drop)]
pub(crate) struct Member {
    pub label: Text,
    pub place: usize,
}

impl Member {
    /// Another name of the same.
    fn share(&self) -> Result<Member, AllocError>
        ensures { IfOk result (λ m. m ≡ self.now) }
    {
        let label = self.label.share()?;
        Ok(Member {
            label,
            place: self.place,
        })
    }
}

/// Actions, in some order.
#[derive(Drop)]
pub(crate) struct Members {
    items: Vec<Member>,
}

impl Model for Members {
    ghost use Rattle.std.specs.Prelude.{List};
    ghost use Rattle.claims.specs.declared.members.Member.{Member as One};

    ghost Value = { List One };

    ghost view = { λ m. m.items.items };
}

impl Members {
    /// None.
    pub(crate) fn new(alloc: Global) -> Members
        ensures { result ≡ [] }
    {
        Members {
            items: Vec::new(alloc),
        }
    }

    /// The same as these, by label and then by place.
    pub(crate) fn sorted(alloc: Global, members: &[Member]) -> Result<Members, AllocError>
        ensures { IfOk result (IsSorting members.now) }
    {
        let mut items = Vec::with_capacity(alloc, members.len())?;
        for member in members {
            items.push(member.share()?)?;
        }
        items.sort()?;
        Ok(Members { items })
    }

    /// One more, which is the last.
    pub(crate) fn push(&mut self, member: Member) -> Result<(), AllocError>
        ensures { OnOk result (self.new ≡ self.old ++ member ∷ []) }
    {
        push_last(&mut self.items, member)
    }

    /// None from now on.
    pub(crate) fn clear(&mut self)
        ensures { self.new ≡ [] }
    {
        self.items.clear();
    }

    /// How many there are.
    pub(crate) fn len(&self) -> usize
        ensures { result ≡ length self.now }
    {
        self.items.len()
    }

    /// All of them, in order.
    pub(crate) fn as_slice(&self) -> &[Member]
        ensures { result.now ≡ self.now }
    {
        self.items.as_slice()
    }
}

/// The labels of these actions.
pub(crate) fn labels_of(alloc: Global, members: &[Member]) -> Result<Words, AllocError>
    ensures { IfOk result (λ w. w ≡ map label_of members.now) }
{
    let mut labels = Words::new(alloc);
    for member in members {
        labels.push(member.label.share()?)?;
    }
    Ok(labels)
}

/// Places of actions in a list.
#[derive(Drop)]
pub struct Places {
    items: Vec<usize>,
}

impl Model for Places {
    ghost use Rattle.std.specs.Prelude.{List, ℕ};

    ghost Value = { List ℕ };

    ghost view = { λ p. p.items.items };
}

impl Places {
    /// All of them, in order.
    pub fn as_slice(&self) -> &[usize]
        ensures { result.now ≡ self.now }
    {
        self.items.as_slice()
    }
}

/// The places of these actions.
pub(crate) fn places_of(alloc: Global, members: &[Member]) -> Result<Places, AllocError>
    ensures { IfOk result (λ p. p ≡ map place_of members.now) }
{
    let mut items = Vec::with_capacity(alloc, members.len())?;
    for member in members {
        items.push(member.place)?;
    }
    Ok(Places { items })
}
