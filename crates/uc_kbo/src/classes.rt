//! The classes of an order of variables, with those of the variables that have small numbers noted.

ghost use Rattle.std.specs.Prelude.{◌≡◌, ℕ, ◌+◌, ◌<◌, ◌≤◌, ◌∷◌, [], length, drop, slice_index, if◌then◌else◌, ◌==◌};
ghost use Rattle.uc_term.specs.Variables.{is_among};
ghost use Rattle.uc_order.specs.VarOrders.{representative, class_of, first_or};
ghost use Rattle.uc_kbo.specs.Noted.{AreNoted};

use std::marker::Model;
use uc_order::{class_number, first_of_class};
use uc_term::Seq;

// The variables below this number have their classes noted.
const NOTED: usize = 16;

/// The first variable of its class, and the number of its class, for each variable below 16.
#[derive(Drop)]
pub struct Notes {
    firsts: [u32; NOTED],
    numbers: [usize; NOTED],
}

/// The classes of an order of variables, the least first. A comparison asks for a variable's class at each place where it
/// stands, so those of the variables below 16 are noted, which takes no memory. A contract sees the classes alone.
#[derive(Drop)]
pub struct Classes<'a> {
    list: &'a [Seq<u32>],
    notes: &'a Notes,
}

impl<'a> Model for Classes<'a> {
    ghost use Rattle.std.specs.Prelude.{List, ℕ};
    ghost use Rattle.std.specs.Coded.{coded_list, coded_ℕ};
    ghost use Rattle.uc_kbo.specs.Noted.{AreNoted};

    ghost Value = { List (List ℕ) };

    ghost coded = { coded_list (coded_list coded_ℕ) };

    ghost view = { λ c. c.list.now };

    ghost invariant = { λ c. AreNoted c.list.now 0 c.notes.now.firsts c.notes.now.numbers };
}

impl<'a> Classes<'a> {
    /// These classes, with the notes of them.
    #[inline]
    pub fn new(list: &'a [Seq<u32>], notes: &'a Notes) -> Classes<'a>
        requires { AreNoted list.now 0 notes.now.firsts notes.now.numbers }
        ensures { result ≡ list.now }
    {
        Classes { list, notes }
    }

    /// No classes, with the notes of none.
    #[inline]
    pub fn none(notes: &'a Notes) -> Classes<'a>
        requires { AreNoted [] 0 notes.now.firsts notes.now.numbers }
        ensures { result ≡ [] }
    {
        Classes::new(&[], notes)
    }

    /// The list of the classes.
    pub fn as_slice(&self) -> &'a [Seq<u32>]
        ensures { result.now ≡ self.now }
    {
        self.list
    }

    /// The first variable of the class of `x`; `x` itself, where it is in none.
    #[inline]
    pub fn first_of(&self, x: u32) -> u32
        ensures { result ≡ representative self.now x }
    {
        let at = x as usize;
        if at < NOTED {
            self.notes.firsts[at]
        } else {
            first_of_class(self.list, x)
        }
    }

    /// The number of the class of `x`, from 0 for the least; the number of classes, where it is in none.
    #[inline]
    pub fn number_of(&self, x: u32) -> usize
        ensures { result ≡ class_of self.now x }
    {
        let at = x as usize;
        if at < NOTED {
            self.notes.numbers[at]
        } else {
            class_number(self.list, x)
        }
    }
}

impl Notes {
    /// The notes of these classes. They are noted from the last to the first, since a variable's class is the first one
    /// that has it.
    #[inline]
    pub fn of(list: &[Seq<u32>]) -> Notes
        ensures { AreNoted list.now 0 result.firsts result.numbers }
    {
        let mut notes = Notes::none(list.len());
        let mut number = list.len();
        while number > 0 {
            number -= 1;
            notes.add(list[number].as_slice(), number);
        }
        notes
    }

    /// The notes of no classes: each variable is noted as the first of its class, and `others` as the number of its class.
    #[inline]
    pub fn none(others: usize) -> Notes
        ensures { AreNoted [] others result.firsts result.numbers }
    {
        let mut firsts = [0; NOTED];
        for x in 0..NOTED as u32 {
            firsts[x as usize] = x;
        }
        Notes {
            firsts,
            numbers: [others; NOTED],
        }
    }

    /// Notes the first variable of a class and this number for each variable of the class.
    #[inline]
    fn add(&mut self, class: &[u32], number: usize)
        requires firsts { length self.old.firsts ≡ 16 }
        requires numbers { length self.old.numbers ≡ 16 }
        ensures firsts_long { length self.new.firsts ≡ 16 }
        ensures numbers_long { length self.new.numbers ≡ 16 }
        ensures first { (x : ℕ) → x < 16 → slice_index self.new.firsts x ≡ (if is_among x class.now then first_or x class.now else slice_index self.old.firsts x) }
        ensures number { (x : ℕ) → x < 16 → slice_index self.new.numbers x ≡ (if is_among x class.now then number else slice_index self.old.numbers x) }
    {
        let mut place = class.len();
        while place > 0 {
            place -= 1;
            self.set(class[place], class[0], number);
        }
    }

    /// Notes the first variable and the number of one variable's class.
    #[inline]
    fn set(&mut self, x: u32, first: u32, number: usize)
        requires firsts { length self.old.firsts ≡ 16 }
        requires numbers { length self.old.numbers ≡ 16 }
        ensures firsts_long { length self.new.firsts ≡ 16 }
        ensures numbers_long { length self.new.numbers ≡ 16 }
        ensures first { (y : ℕ) → y < 16 → slice_index self.new.firsts y ≡ (if y == x then first else slice_index self.old.firsts y) }
        ensures number { (y : ℕ) → y < 16 → slice_index self.new.numbers y ≡ (if y == x then number else slice_index self.old.numbers y) }
    {
        let at = x as usize;
        if at < NOTED {
            self.firsts[at] = first;
            self.numbers[at] = number;
        }
    }
}
