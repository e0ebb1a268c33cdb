// A list of gates that was checked.
ghost use Rattle.std.specs.Prelude.{◌≡◌, length, Ok, MatchResult, slice_index};
ghost use Rattle.circuit.specs.Codes.{parts_of};
ghost use Rattle.circuit.specs.Gates.{setting_for, layout_at};
ghost use Rattle.circuit.specs.Openings.{openings_of, products};
ghost use Rattle.circuit.specs.Circuits.{Plan, plan, circuit_of, Refused};

use crate::gates::{code_at, layout_of};
use crate::lists::{MOST, check_list};
use crate::openings::{Opening, count_products, openings_of};
use crate::split;
use curve::refusal::Refusal;
use encoding::layout::Layout;
use encoding::methods::Methods;
use std::alloc::Global;
use std::marker::Model;

// What a list of gates is checked for: the degree of the modulus, and how many inputs and constants there are.
#[derive(Clone, Copy, Debug, PartialEq, Eq, Hash)]
pub struct Limits {
    pub degree: usize,
    pub inputs: usize,
    pub constants: usize,
}

// A list that was taken: its codes, the layout of each gate, its openings in order, and how many inputs and constants it
// is for. Codes and layouts are two lists, for each is asked for as a slice of its own.
#[derive(Drop)]
pub struct Circuit {
    codes: Vec<u32>,
    layouts: Vec<Layout>,
    openings: Vec<Opening>,
    inputs: usize,
    constants: usize,
}

impl Model for Circuit {
    ghost Value = { Plan };

    ghost view = { λ c. plan c.codes.items c.layouts.items c.openings.items c.inputs c.constants };

    ghost invariant = { λ c. (length c.layouts.items ≡ length c.codes.items) × (c.openings.items ≡ openings_of c.codes.items) };
}

impl Circuit {
    // Checks a list for these limits, and copies it. The tests come first, so want of memory refuses only a list that would
    // be taken.
    pub fn check<M: Methods>(
        heap: Global,
        limits: Limits,
        codes: &[u32],
    ) -> Result<Circuit, Refusal>
        ensures { MatchResult result (λ c. circuit_of (setting_for limits M.Methods.method) codes.now ≡ Ok c) (λ e. Refused (setting_for limits M.Methods.method) codes.now e) }
    {
        // A list is judged before memory is asked for, so the layouts stand in a fixed table.
        let mut layouts = [Layout::Plain; MOST];
        check_list::<M>(limits, codes, &mut layouts)?;
        Ok(Circuit {
            codes: Vec::from_slice(heap, codes)?,
            layouts: Vec::from_slice(heap, &layouts[..codes.len()])?,
            openings: openings_of(heap, codes)?,
            inputs: limits.inputs,
            constants: limits.constants,
        })
    }

    // The gates' codes.
    pub fn codes(&self) -> &[u32]
        ensures { result.now ≡ self.now.codes }
    {
        self.codes.as_slice()
    }

    // The layout of each gate.
    pub fn layouts(&self) -> &[Layout]
        ensures value { result.now ≡ self.now.layouts }
        ensures even { length self.now.layouts ≡ length self.now.codes }
    {
        self.layouts.as_slice()
    }

    // A gate taken apart into kind, detail, first and second; past the end it reads as the code 0.
    pub fn gate(&self, number: usize) -> (u32, u32, u32, u32)
        ensures { result ≡ parts_of (slice_index self.now.codes number) }
    {
        split(code_at(self.codes.as_slice(), number))
    }

    // The layout of a gate; past the end it reads as plain.
    pub fn layout(&self, gate: usize) -> Layout
        ensures { result ≡ layout_at self.now.layouts gate }
    {
        layout_of(self.layouts.as_slice(), gate)
    }

    // The openings, in the order of their gates.
    pub fn openings(&self) -> &[Opening]
        ensures value { result.now ≡ self.now.openings }
        ensures all { self.now.openings ≡ openings_of self.now.codes }
    {
        self.openings.as_slice()
    }

    // How many pairs it uses: one for each product.
    pub fn pairs(&self) -> usize
        ensures { result ≡ products self.now.codes (length self.now.codes) }
    {
        count_products(self.codes.as_slice())
    }

    // How many inputs the list is for.
    pub fn inputs(&self) -> usize
        ensures { result ≡ self.now.inputs }
    {
        self.inputs
    }

    // How many constants the list is for.
    pub fn constants(&self) -> usize
        ensures { result ≡ self.now.constants }
    {
        self.constants
    }
}
