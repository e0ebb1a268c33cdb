// Gate codes, and which gate a list may have next.
#![tactic(auto)]

ghost use Rattle.std.specs.Prelude.{◌≡◌};
ghost use Rattle.circuit.specs.Codes.{parts_of, joined, CodesComeBack, PartsComeBack};
ghost use Rattle.circuit.specs.Kinds.{named_layout};
ghost use Rattle.circuit.specs.Wellformed.{TakenListsFit};

use encoding::layout::Layout;

pub mod checked;
mod gates;
pub mod kinds;
pub mod lists;
pub mod openings;

// A gate code taken apart into kind, detail, first and second.
pub fn split(code: u32) -> (u32, u32, u32, u32)
    ensures { result ≡ parts_of code }
{
    (code >> 29, code >> 26 & 7, code >> 13 & 8191, code & 8191)
}

// The code of these parts, if each fits its field.
#[tactic(auto, using(crate::proofs::Fields::join_is))]
pub fn join(kind: u32, detail: u32, first: u32, second: u32) -> Option<u32>
    ensures { result ≡ joined kind detail first second }
{
    if kind > 7 || detail > 7 || first > 8191 || second > 8191 {
        return None;
    }
    Some(kind << 29 | detail << 26 | first << 13 | second)
}

// The layout that a detail names; plain where it names none.
pub fn layout_named(number: u32) -> Layout
    ensures { result ≡ named_layout number }
{
    Layout::try_from(number).unwrap_or(Layout::Plain)
}

// Every code is the code of its parts.
pub fn codes_come_back()
    ensures { CodesComeBack }
{}

// Parts that have a code are the parts of it.
pub fn parts_come_back()
    ensures { PartsComeBack }
{}

// Every gate of a list that is taken has a layout, and its fields name what its kind asks for.
pub fn taken_lists_fit()
    ensures { TakenListsFit }
{}
