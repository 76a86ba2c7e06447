// A document that is being generated, line by line.
ghost use Rattle.std.specs.Prelude.{◌≡◌, ◌<◌, ◌≤◌, ◌+◌, ◌-◌, ◌%◌, [], ◌++◌, length, codes, OnOk, IfOk};
ghost use Rattle.document_generator.specs.Generator.{next_draw, with_input, with_derived, with_set, with_turn, with_drawn_member, with_new_value, with_new_members, with_change};

use crate::lines::{write_add, write_derived, write_drop, write_input, write_set};
use crate::members::{MAX_DEPENDENCIES, Members};
use std::alloc::Global;
use std::marker::Model;
use svc_value::OutOfMemory;
use svc_value::limits::MAX_SERVICES;

/// The number x, the members of each derived service and the text so far.
#[derive(Drop)]
pub struct Draft {
    alloc: Global,
    x: u32,
    members: Vec<Members>,
    text: Vec<u8>,
}

impl Model for Draft {
    ghost use Rattle.std.specs.Prelude.{◌<◌};
    ghost use Rattle.document_generator.specs.Generator.{Draft};

    ghost Value = { Draft };

    ghost view = { λ d. record { x = d.x; members = d.members.items; text = d.text.items } };

    ghost invariant = { λ d. d.x < 65537 };
}

impl Draft {
    /// No line yet.
    pub fn new(alloc: Global, start: u32) -> Draft
        requires { start < 65537 }
        ensures { result ≡ record { x = start; members = []; text = [] } }
    {
        Draft {
            alloc,
            x: start,
            members: Vec::new(alloc),
            text: Vec::new(alloc),
        }
    }

    // A draw below a number.
    fn draw(&mut self, below: u16) -> u16
        requires { 0 < below }
        ensures value { result ≡ next_draw self.old.x % below }
        ensures draft { self.new ≡ record self.old { x = next_draw self.old.x } }
    {
        self.x = (self.x * 75 + 74) % 65537;
        (self.x % u32::from(below)) as u16
    }

    /// Adds the k-th input.
    pub fn add_input(&mut self, k: u16) -> Result<(), OutOfMemory>
        ensures { OnOk result (self.new ≡ with_input k self.old) }
    {
        let value = self.draw(1000);
        write_input(&mut self.text, k, value)
    }

    /// Adds derived service n.
    pub fn add_derived(&mut self, inputs: u16, n: u16) -> Result<(), OutOfMemory>
        requires some { 0 < inputs }
        requires most { inputs + n < MAX_SERVICES }
        ensures { OnOk result (self.new ≡ with_derived inputs n self.old) }
    {
        let p = self.draw(inputs + n);
        let q = self.draw(inputs + n);
        let members = Members::new(self.alloc, p, q)?;
        self.members.push(members)?;
        write_derived(&mut self.text, inputs, n + 1, p, q)
    }

    // Sets the k-th input.
    fn set(&mut self, k: u16) -> Result<(), OutOfMemory>
        ensures { OnOk result (self.new ≡ with_set k (next_draw self.old.x) self.old) }
    {
        let value = self.draw(1000);
        write_set(&mut self.text, k, value)
    }

    // Service q goes, comes, or leaves its turn to the first input.
    fn turn(&mut self, inputs: u16, n: u16, q: u16) -> Result<(), OutOfMemory>
        requires place { n < length self.old.members }
        requires number { n < MAX_SERVICES }
        requires member { q < MAX_SERVICES }
        ensures { OnOk result (self.new ≡ with_turn inputs n q self.old.x self.old) }
    {
        let members = &mut self.members[usize::from(n)];
        if members.contains(q) {
            members.remove(q);
            write_drop(&mut self.text, inputs, n + 1, q)
        } else if members.len() < MAX_DEPENDENCIES {
            members.add(q)?;
            write_add(&mut self.text, inputs, n + 1, q)
        } else {
            self.set(1)
        }
    }

    // Draws a service before derived service n, which goes or comes there.
    fn change_member(&mut self, inputs: u16, n: u16) -> Result<(), OutOfMemory>
        requires place { n < length self.old.members }
        requires some { 0 < inputs }
        requires most { inputs + n < MAX_SERVICES }
        ensures { OnOk result (self.new ≡ with_drawn_member inputs n self.old.x self.old) }
    {
        let q = self.draw(inputs + n);
        self.turn(inputs, n, q)
    }

    // Draws an input and its value.
    fn change_input(&mut self, inputs: u16) -> Result<(), OutOfMemory>
        requires some { 0 < inputs }
        requires most { inputs < MAX_SERVICES }
        ensures { OnOk result (self.new ≡ with_new_value inputs self.old.x self.old) }
    {
        let k = self.draw(inputs) + 1;
        self.set(k)
    }

    // Draws a derived service and a service before it.
    fn change_derived(&mut self, inputs: u16, services: u16) -> Result<(), OutOfMemory>
        requires some { 0 < inputs }
        requires derived { inputs < services }
        requires most { services ≤ MAX_SERVICES }
        requires members { length self.old.members ≡ services - inputs }
        ensures { OnOk result (self.new ≡ with_new_members inputs services self.old.x self.old) }
    {
        let n = self.draw(services - inputs);
        self.change_member(inputs, n)
    }

    /// Adds a change.
    pub fn add_change(&mut self, inputs: u16, services: u16) -> Result<(), OutOfMemory>
        requires some { 0 < inputs }
        requires derived { inputs < services }
        requires most { services ≤ MAX_SERVICES }
        requires members { length self.old.members ≡ services - inputs }
        ensures { OnOk result (self.new ≡ with_change inputs services self.old) }
    {
        if self.draw(4) < 3 {
            self.change_input(inputs)
        } else {
            self.change_derived(inputs, services)
        }
    }

    /// The text, with the line that ends the leg.
    pub fn finish(self) -> Result<Vec<u8>, OutOfMemory>
        ensures { IfOk result (λ text. text.items ≡ self.text ++ codes "settle\n") }
    {
        let mut text = self.text;
        text.extend_from_slice(b"settle\n")?;
        Ok(text)
    }
}
