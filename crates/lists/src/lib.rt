//! A list that contracts see as the list of its elements.
#![tactic(auto)]

ghost use Rattle.std.specs.Prelude.{◌≡◌, ◌==◌, ◌<◌, length, slice_set};

use std::marker::Model;

/// A `Vec` that contracts see as its list: two are equal where their elements are, whatever room they keep.
///
/// A public type with a field of many values has it as a `List`, so that a clause can compare the whole with
/// the value of a definition. It is made of a `Vec` and gives it back without taking memory.
#[derive(Debug, Drop)]
pub struct List<T> {
    elements: Vec<T>,
}

impl<T> Model for List<T> {
    ghost use Rattle.std.specs.Prelude.{List};
    ghost use Rattle.std.specs.Coded.{coded_list};

    ghost Value = { List T };

    ghost coded = { coded_list T.code };

    ghost view = { λ a. a.elements.items };
}

impl<T> List<T> {
    /// The list of the elements.
    pub fn from_vec(list: Vec<T>) -> Self
        ensures { result ≡ list.items }
    {
        List { elements: list }
    }

    /// The elements, in order.
    pub fn as_slice(&self) -> &[T]
        ensures { result.now ≡ self.now }
    {
        self.elements.as_slice()
    }

    /// The elements, in order, as the `Vec` that keeps them.
    pub fn into_vec(self) -> Vec<T>
        ensures { result.items ≡ self }
    {
        self.elements
    }

    /// How many elements there are.
    pub fn len(&self) -> usize
        ensures { result ≡ length self.now }
    {
        self.elements.len()
    }

    /// Whether there is no element.
    pub fn is_empty(&self) -> bool
        ensures { result ≡ (length self.now == 0) }
    {
        self.elements.is_empty()
    }
}

impl<T: Drop> List<T> {
    /// Puts an element at a place, in place of the one that stands there.
    pub fn set(&mut self, at: usize, element: T)
        requires { at < length self.old }
        ensures { self.new ≡ slice_set self.old at element }
    {
        self.elements[at] = element;
    }
}

#[cfg(test)]
mod tests;
