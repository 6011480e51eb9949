//! The elements of a listing, one after the other.
ghost use Rattle.std.specs.Prelude.{◌≡◌};

use crate::distinct::Elements;
use crate::element::Element;
use std::marker::Model;

/// The elements of a listing that are left, from the first on.
#[derive(Drop)]
pub struct ElementsIter<'l, 'a> {
    elements: &'l Elements<'a>,
    next: usize,
}

impl<'l, 'a> Model for ElementsIter<'l, 'a> {
    ghost use Rattle.std.specs.Prelude.{List, drop};
    ghost use Rattle.depsets.specs.declared.element.Element.{Element};

    ghost Value = { List Element };

    ghost view = { λ i. drop i.next i.elements.now };
}

impl<'l, 'a> Iterator for ElementsIter<'l, 'a> {
    ghost use Rattle.std.specs.Iterator.{YieldsFirstRef, item_count};

    type Item = &'a Element;

    ghost next_gives = { YieldsFirstRef (λ elements. elements) };

    ghost remaining = { item_count (λ elements. elements) };

    #[inline(always)]
    fn next(&mut self) -> Option<&'a Element> {
        if self.next >= self.elements.len() {
            return None;
        }
        let element = self.elements.at(self.next);
        self.next += 1;
        Some(element)
    }
}

impl<'l, 'a> IntoIterator for &'l Elements<'a> {
    type Item = &'a Element;

    type IntoIter = ElementsIter<'l, 'a>;

    ghost into_iter_gives = { λ s r. r ≡ s.now };

    #[inline(always)]
    fn into_iter(self) -> ElementsIter<'l, 'a> {
        ElementsIter {
            elements: self,
            next: 0,
        }
    }
}
